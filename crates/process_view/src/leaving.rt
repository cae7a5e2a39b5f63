//! What a process keeps after a free or an exit.

ghost use Rattle.std.specs.Prelude.{◌≡◌, ◌<◌, [], true, All, AllPairs, length, slice_index};
ghost use Rattle.load_model.specs.Modules.{Library, order_of};
ghost use Rattle.load_model.specs.State.{Process, Eager, reaches};
ghost use Rattle.load_model.specs.Leaving.{exiting, freeing, keeping};
ghost use Rattle.load_model.specs.ProcessCounts.{AreCountsOf};
ghost use Rattle.mod_refs.specs.Changes.{given_up};
ghost use Rattle.process_view.specs.ProcessViews.{freed_view};
ghost use Rattle.process_view.specs.Leaves.{CanLeave, view_left};

use crate::view::View;
use mod_refs::Leaving;
use process_pages::{ResidenceFinder, keep_places, keep_reached};

impl View {
    // Keeps nothing: no load, no residence, no page.
    fn leave_all(&mut self)
        requires { (p : Process) × AreCountsOf self.old.library p self.old.holding.counts }
        ensures counts { (lib : Library) (p : Process) (e : Eager) → AreCountsOf lib p self.old.holding.counts →
            AreCountsOf lib (keeping lib e (exiting p)) self.new.holding.counts }
        ensures rest { self.new ≡ record {
          library = self.old.library;
          holding = record self.old.holding { ended = true; counts = self.new.holding.counts; residences = []; mapped = [] };
          residences = [];
          page_room = self.new.page_room;
          residence_room = self.new.residence_room;
        } }
    {
        self.counts.exit();
        self.residences.clear();
        self.finder = ResidenceFinder::none();
        self.pages.clear();
        self.ended = true;
    }

    // Gives up a load of module `m`, and keeps of the residences and pages what the process still reaches. Where it reaches
    // them all it looks at no page.
    fn leave_one(&mut self, m: u32)
        requires module { m < length self.old.library }
        requires held { 0 < slice_index self.old.holding.counts.loads m }
        requires counted { All (λ k. 0 < slice_index self.old.holding.counts.reached k) (order_of self.old.library m) }
        requires once { AllPairs (λ a b. a ≡ b → ⊥) (order_of self.old.library m) }
        requires counts { (p : Process) × AreCountsOf self.old.library p self.old.holding.counts }
        ensures counts { (p : Process) (e : Eager) → AreCountsOf self.old.library p self.old.holding.counts →
            AreCountsOf self.old.library (keeping self.old.library e (freeing m p)) self.new.holding.counts }
        ensures rest { (p : Process) → AreCountsOf self.old.library p self.old.holding.counts →
            self.new ≡ freed_view self.old (reaches self.old.library (freeing m p)) self.new.holding.counts self.new.page_room self.new.residence_room }
    {
        self.counts.free(self.lib.order(m), m);
        let before = self.residences.len();
        keep_reached(&mut self.residences, self.lib.len(), &self.counts);
        if self.residences.len() == before {
            return;
        }
        keep_places(self.residences.as_mut_slice(), &mut self.pages);
        self.finder = ResidenceFinder::of(self.residences.as_slice());
    }

    // Gives this up.
    pub(crate) fn give_up(&mut self, what: Leaving)
        requires held { CanLeave self.old what }
        requires counts { (p : Process) × AreCountsOf self.old.library p self.old.holding.counts }
        ensures counts { (p : Process) (e : Eager) → AreCountsOf self.old.library p self.old.holding.counts →
            AreCountsOf self.old.library (keeping self.old.library e (given_up what p)) self.new.holding.counts }
        ensures rest { (p : Process) → AreCountsOf self.old.library p self.old.holding.counts →
            self.new ≡ view_left self.old what p self.new.holding.counts self.new.page_room self.new.residence_room }
    {
        match what {
            Leaving::One(m) => self.leave_one(m),
            Leaving::All => self.leave_all(),
        }
    }
}
