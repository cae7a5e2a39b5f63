//! What a process keeps itself.

ghost use Rattle.std.specs.Prelude.{◌≡◌, true, length};
ghost use Rattle.std.specs.Arc.{arc_value};
ghost use Rattle.load_model.specs.State.{pids, is_among};
ghost use Rattle.process_view.specs.ProcessViews.{at_front, new_view};

use load_core::Board;
use lx_types::PageBytes;
use mod_graph::Library;
use mod_refs::LoadCounts;
use page_fix::LentLibrary;
use process_pages::{MappedPage, NameHints, ReachedResidence, ResidenceFinder, SparePages};
use std::alloc::Global;
use std::marker::Model;
use std::sync::Arc;

/// A process's own view: its program and its loads, the residences that it reaches, and the pages that it has mapped, in
/// the order in which it did, with its own writes in them. It was shown so many entries of the history.
pub struct View {
    pub(crate) lib: LentLibrary,
    pub(crate) hints: NameHints,
    pub(crate) pid: u32,
    pub(crate) ended: bool,
    pub(crate) counts: LoadCounts,
    pub(crate) residences: Vec<ReachedResidence>,
    pub(crate) finder: ResidenceFinder,
    pub(crate) pages: Vec<MappedPage>,
    pub(crate) front: u64,
    // Buffers that were not used: for a page that all share, and for pages that a write goes into. Contracts do not see them.
    pub(crate) buffer: Option<Arc<PageBytes>>,
    pub(crate) spares: SparePages,
}

impl Model for View {
    ghost use Rattle.process_view.specs.ProcessViews.{ProcessView};
    ghost use Rattle.process_view.specs.Kept.{view_of, Keeps};

    ghost Value = { ProcessView };

    ghost view = { view_of };

    ghost invariant = { Keeps };
}

// A view is dropped by a call, wherever that is, and not taken apart, and proved anew, in each function that drops one.
impl Drop for View {
    fn drop(self) {
        let View {
            lib,
            hints,
            pid: _,
            ended: _,
            counts,
            residences,
            finder,
            pages,
            front: _,
            buffer,
            spares,
        } = self;
        drop(lib);
        drop(hints);
        drop(counts);
        drop(residences);
        drop(finder);
        drop(pages);
        drop(buffer);
        drop(spares);
    }
}

impl View {
    /// The view of process `pid`, which has done nothing. It takes no memory.
    pub fn make(alloc: Global, lib: Arc<Library>, pid: u32) -> View
        requires { is_among pids pid ≡ true }
        ensures { result ≡ new_view (arc_value lib) pid }
    {
        let counts = LoadCounts::new(lib.len());
        let hints = NameHints::of(&lib);
        View {
            lib: LentLibrary::lend(lib),
            hints,
            pid,
            ended: false,
            counts,
            residences: Vec::new(alloc),
            finder: ResidenceFinder::none(),
            pages: Vec::new(alloc),
            front: 0,
            buffer: None,
            spares: SparePages::none(alloc),
        }
    }

    /// The number of the process, from 1 to 16.
    pub fn pid(&self) -> u32
        ensures number { result ≡ self.now.holding.pid }
        ensures process { is_among pids self.now.holding.pid ≡ true }
    {
        self.pid
    }

    /// The library.
    pub fn library(&self) -> &Library
        ensures { result.now ≡ self.now.library }
    {
        &self.lib
    }

    /// Whether the process has ended.
    pub fn is_ended(&self) -> bool
        ensures { result ≡ self.now.holding.ended }
    {
        self.ended
    }

    /// How many entries of the history it was shown.
    pub fn front(&self) -> u64
        ensures { result ≡ self.now.holding.front }
    {
        self.front
    }

    /// Is shown all that was done on a board.
    pub fn follow(&mut self, board: &Board)
        ensures { self.new ≡ at_front (length board.now.history) self.old }
    {
        self.front = board.history().len() as u64;
    }
}
