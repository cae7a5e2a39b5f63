//! The residences that join a process's own after a start or a load. What takes memory is done before.

ghost use Rattle.std.specs.Prelude.{◌≡◌, ◌<◌, ◌≤◌, All, IfOk, OnOk, length, map};
ghost use Rattle.load_model.specs.Entering.{joined};
ghost use Rattle.load_core.specs.BoardState.{BoardState, state_of};
ghost use Rattle.process_view.specs.ProcessViews.{StandsAt, fresh_shown};
ghost use Rattle.process_view.specs.Joining.{AreEmpty, CanJoin, modules_of, with_residences};

use crate::view::View;
use lx_model::order_is_reach;
use lx_types::NoMemory;
use page_frames::Residence;
use process_pages::PageRows;
use std::alloc::Global;

impl View {
    // The modules that a start or a load of module `m` attaches.
    pub(crate) fn joining(&self, alloc: Global, m: u32) -> Result<Vec<u32>, NoMemory>
        requires { m < length self.now.library }
        ensures { IfOk result (λ modules. (b : BoardState) → StandsAt b self.now → modules.items ≡ joined b.library (state_of b) self.now.holding.pid m) }
    {
        order_is_reach();
        self.counts.unreached(alloc, self.lib.order(m))
    }

    // The rows of modules that have no page mapped.
    pub(crate) fn rows_for(&self, alloc: Global, modules: &[u32]) -> Result<Vec<PageRows>, NoMemory>
        requires { All (λ m. m < length self.now.library) modules.now }
        ensures { IfOk result (λ rows. AreEmpty self.now.library modules.now rows.items) }
    {
        let mut rows = Vec::with_capacity(alloc, modules.len())?;
        for m in modules {
            rows.push(PageRows::new(alloc, self.lib.module(*m))?)?;
        }
        Ok(rows)
    }

    // Finds room for so many residences more.
    pub(crate) fn reserve_residences(&mut self, count: usize) -> Result<(), NoMemory>
        ensures room { OnOk result (count ≤ self.new.residence_room) }
        ensures same { self.new ≡ record self.old { residence_room = self.new.residence_room } }
    {
        self.residences.reserve(count)?;
        Ok(())
    }

    // What it shows of its residences.
    fn show_residences(&self)
        ensures { self.now.holding.residences ≡ map fresh_shown self.now.residences }
    {
        let _ = &self.residences;
    }

    // Keeps residences with their rows, in its room.
    pub(crate) fn keep_joined(&mut self, joined: Vec<Residence>, rows: Vec<PageRows>)
        requires new { CanJoin self.old joined.items }
        requires rows { AreEmpty self.old.library (modules_of joined.items) rows.items }
        ensures { self.new ≡ with_residences joined.items self.old }
    {
        for (residence, places) in joined.into_iter().zip(rows) {
            self.keep_residence(residence, places);
        }
        self.show_residences();
    }
}
