//! One frame: a page that is published once, and held by whoever maps it.

ghost use Rattle.std.specs.Prelude.{◌≡◌, IfSome};
ghost use Rattle.std.specs.Arc.{arc_value};
ghost use Rattle.lx_model.specs.ModuleBytes.{fixed_page};
ghost use Rattle.page_frames.specs.Frames.{frame_bytes};
ghost use Rattle.page_frames.specs.Looks.{HasLooked};

use counted_slot::{Counted, FREE, Fits, MOST_READERS, ONE_READER, PRESENT, TAKEN};
use lx_types::{Bases, PageBytes, PageId};
use mod_graph::Library;
use std::hint::spin_loop;
use std::marker::Model;
use std::snapshot::Snapshot;
use std::sync::Arc;

/// How many looks a thread takes at a page that is not there yet, with a pause after each, before it sleeps.
const LOOKS: u32 = 64;

/// The bytes of a page that was published.
#[derive(Drop)]
struct Published {
    bytes: Arc<PageBytes>,
}

/// The page that a frame is for: fixed when the frame is made, and never stored.
#[derive(Drop)]
struct FrameOf {
    library: Snapshot<Library>,
    module: u32,
    bases: Snapshot<Bases>,
    page: PageId,
}

impl Fits for Published {
    type Tag = FrameOf;

    ghost fits = { λ tag x. arc_value x.bytes ≡ fixed_page tag.library.value tag.«module» tag.bases.value tag.page };
}

/// A frame. Contracts see the page that it is for, whether or not that was published.
#[derive(Drop)]
pub struct Frame {
    slot: Counted<Option<Published>>,
}

impl Model for Frame {
    ghost use Rattle.page_frames.specs.Frames.{FramePage};

    ghost Value = { FramePage };

    ghost view = { λ f. record { library = f.slot.library.value; «module» = f.slot.«module»; bases = f.slot.bases.value; page = f.slot.page } };
}

/// What a look at a frame found.
#[derive(Drop)]
pub enum Look {
    /// The page is there: a hold on its bytes.
    Held(Arc<PageBytes>),
    /// The page was not published yet.
    Absent,
    /// Another thread came between, or nobody can hold it more often: look again.
    Disturbed,
}

// One more hold on the bytes of a page.
fn held(page: &Published) -> Look
    ensures { HasLooked result (arc_value page.now.bytes) }
{
    match Arc::try_clone(&page.bytes) {
        Ok(bytes) => Look::Held(bytes),
        Err(_) => Look::Disturbed,
    }
}

impl Frame {
    /// An empty frame for a page.
    pub fn new(library: &Library, module: u32, bases: &Bases, page: PageId) -> Frame
        ensures { result ≡ record { library = library.now; «module» = «module»; bases = bases.now; page = page } }
    {
        let of = FrameOf {
            library: Snapshot::of(library),
            module,
            bases: Snapshot::of(bases),
            page,
        };
        Frame {
            slot: Counted::new(None, &of),
        }
    }

    /// Puts the page's bytes into the frame, unless another thread did. It returns whatever others do, and takes no memory.
    pub fn put(&self, bytes: Arc<PageBytes>)
        requires { arc_value bytes ≡ frame_bytes self.now }
    {
        let (found, claim) = self.slot.turn(FREE, TAKEN);
        if found == FREE {
            drop(claim.put(Some(Published { bytes }), PRESENT));
        } else {
            claim.done();
        }
    }

    /// Takes hold of the page's bytes, where it is there.
    pub fn hold(&self) -> Look
        ensures { HasLooked result (frame_bytes self.now) }
    {
        let word = self.slot.load();
        if word % 4 != PRESENT {
            return Look::Absent;
        }
        if word % (1 << 32) / ONE_READER >= MOST_READERS {
            return Look::Disturbed;
        }
        let (found, claim) = self.slot.turn(word, word + ONE_READER);
        if found != word {
            claim.done();
            return Look::Disturbed;
        }
        let look = match claim.get() {
            Some(page) => held(page),
            None => Look::Absent,
        };
        claim.leave();
        look
    }

    /// Takes hold of the page's bytes where it is there within a number of looks. No look gives the processor away.
    pub fn hold_soon(&self) -> Option<Arc<PageBytes>>
        ensures { IfSome result (λ bytes. arc_value bytes ≡ frame_bytes self.now) }
    {
        for _ in 0..LOOKS {
            if let Look::Held(bytes) = self.hold() {
                return Some(bytes);
            }
            spin_loop();
        }
        None
    }
}
