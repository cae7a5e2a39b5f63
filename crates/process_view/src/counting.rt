//! What a process counts after a start or a load.

ghost use Rattle.std.specs.Prelude.{◌≡◌};
ghost use Rattle.load_model.specs.Modules.{order_of};
ghost use Rattle.load_model.specs.State.{Process};
ghost use Rattle.load_model.specs.Entering.{holding, attaching};
ghost use Rattle.load_model.specs.ProcessCounts.{AreCountsOf, unreached};
ghost use Rattle.process_view.specs.Counting.{CanCount, with_counts};

use crate::view::View;
use load_model::How;
use lx_model::order_is_reach;

impl View {
    // Counts a start or a load of module `m`, and attaches what the process did not reach.
    pub(crate) fn count_in(&mut self, how: How, m: u32)
        requires { CanCount how m self.old }
        ensures counts { (p : Process) → AreCountsOf self.old.library p self.old.holding.counts
            → AreCountsOf self.old.library (holding how m (attaching (unreached self.old.library p (order_of self.old.library m)) p)) self.new.holding.counts }
        ensures rest { self.new ≡ with_counts self.new.holding.counts self.old }
    {
        order_is_reach();
        match how {
            How::Start => self.counts.start(self.lib.order(m), m),
            How::Load => self.counts.load(self.lib.order(m), m),
        }
    }
}
