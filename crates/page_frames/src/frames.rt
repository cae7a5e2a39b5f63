//! The frames of a residence: one for each page that all processes share.

ghost use Rattle.std.specs.Prelude.{◌≡◌, ◌<◌, true, IfOk, length};
ghost use Rattle.std.specs.Arc.{arc_value};
ghost use Rattle.lx_model.specs.Library.{module_of};
ghost use Rattle.lx_model.specs.ModuleBytes.{fixed_page};
ghost use Rattle.page_fix.specs.Fixable.{is_fixable};
ghost use Rattle.page_frames.specs.Frames.{frame_rows};

use crate::frame::{Frame, Look};
use crate::rows::{FrameRow, PlacedModule, ROWS_IN_PLACE, frame_at};
use bell::Bell;
use lx_types::{Bases, NoMemory, PageBytes, PageId};
use mod_graph::Library;
use page_fix::FixedPage;
use smallvec::SmallVec;
use std::alloc::Global;
use std::marker::Model;
use std::sync::{Arc, Wait};

// The mark of frames, and the name of a keeper. Contracts never say which number it is: so what is proved over them holds as well
// where each has a number of its own, and no body above can take one for another.
pub const UNTOLD: u64 = 0;

/// The frames of a residence of a module in memory: a frame for each page of its Code and Shared objects, with the serial number,
/// the library, the module, and the bases of what the module reaches. Contracts see their mark, and not which number it is: so all
/// holds on the same frames show one mark, and no others are known to.
pub struct Frames {
    mark: u64,
    serial: u64,
    module: u32,
    bases: Bases,
    library: Arc<Library>,
    rows: SmallVec<FrameRow, ROWS_IN_PLACE>,
    bell: Bell,
}

// Dropped by a call, as lists are (`Seq`).
impl Drop for Frames {
    fn drop(self) {
        let Frames {
            mark: _,
            serial: _,
            module: _,
            bases,
            library,
            rows,
            bell,
        } = self;
        drop(bases);
        drop(library);
        drop(rows);
        drop(bell);
    }
}

impl Model for Frames {
    ghost use Rattle.std.specs.Prelude.{◌≡◌, ◌<◌, length};
    ghost use Rattle.std.specs.Arc.{arc_value};
    ghost use Rattle.page_frames.specs.Frames.{frame_rows};
    ghost use Rattle.page_frames.specs.Residences.{FramesFor};

    ghost Value = { FramesFor };

    ghost view = { λ r. record { library = arc_value r.library; serial = r.serial; «module» = r.«module»; bases = r.bases; mark = r.mark } };

    ghost invariant = { λ r. (r.«module» < length (arc_value r.library)) × (r.rows.items ≡ frame_rows (arc_value r.library) r.«module» r.bases) };
}

impl Frames {
    /// The frames of a residence of module `m` in which no page was published. Their memory is a few bytes for each page that all
    /// processes share, and the pages that are published; it ends with the last hold on them.
    pub fn make(
        alloc: Global,
        serial: u64,
        lib: Arc<Library>,
        m: u32,
        bases: Bases,
    ) -> Result<Frames, NoMemory>
        requires { m < length (arc_value lib) }
        ensures { IfOk result (λ r. r ≡ record { library = arc_value lib; serial = serial; «module» = m; bases = bases; mark = r.mark }) }
    {
        let placed = PlacedModule {
            library: &lib,
            module: m,
            bases: &bases,
        };
        let rows = placed.rows(alloc)?;
        Ok(Frames {
            mark: UNTOLD,
            serial,
            module: m,
            bases,
            library: lib,
            rows,
            bell: Bell::new(),
        })
    }

    // The serial number, from 1.
    pub(crate) fn serial(&self) -> u64
        ensures { result ≡ self.now.serial }
    {
        self.serial
    }

    // The module's number in its library.
    pub(crate) fn module(&self) -> u32
        ensures number { result ≡ self.now.«module» }
        ensures within { result < length self.now.library }
    {
        self.module
    }

    // The library that the module is in.
    pub(crate) fn library(&self) -> &Library
        ensures { result.now ≡ self.now.library }
    {
        &self.library
    }

    // The bases of the objects of each module that the module reaches.
    pub(crate) fn bases(&self) -> &Bases
        ensures { result.now ≡ self.now.bases }
    {
        &self.bases
    }

    // The frame of a page.
    fn frame(&self, p: PageId) -> &Frame
        requires { is_fixable (module_of self.now.library self.now.«module») p ≡ true }
        ensures { result.now ≡ record { library = self.now.library; «module» = self.now.«module»; bases = self.now.bases; page = p } }
    {
        frame_at(self.rows.as_slice(), p)
    }

    // Publishes a page that was fixed for this residence.
    pub(crate) fn publish<R: Wait>(&self, rt: &R, p: PageId, page: FixedPage, bytes: Arc<PageBytes>)
        requires there { is_fixable (module_of self.now.library self.now.«module») p ≡ true }
        requires own { (page.serial ≡ self.now.serial) × (page.page ≡ p) }
        requires bytes { page.bytes ≡ fixed_page self.now.library self.now.«module» self.now.bases p }
        requires buffer { arc_value bytes ≡ page.bytes }
    {
        let _ = rt;
        page.publish(&self.library);
        self.frame(p).put(bytes);
        self.bell.ring();
    }

    // Takes hold of a page once it is published; until then the thread looks for a while, and then sleeps.
    pub(crate) fn hold<R: Wait>(&self, rt: &R, p: PageId) -> Arc<PageBytes>
        requires { is_fixable (module_of self.now.library self.now.«module») p ≡ true }
        ensures { arc_value result ≡ fixed_page self.now.library self.now.«module» self.now.bases p }
    {
        let frame = self.frame(p);
        if let Some(bytes) = frame.hold_soon() {
            return bytes;
        }
        for _ in rt.forever() {
            let heard = self.bell.heard();
            match frame.hold() {
                Look::Held(bytes) => return bytes,
                Look::Absent => self.bell.sleep(rt, heard),
                Look::Disturbed => {}
            }
        }
        unreachable!()
    }
}
