//! The end of a loader: its passes are joined again, and the history is given.

ghost use Rattle.std.specs.Prelude.{◌≡◌};
ghost use Rattle.turn_lock.specs.Passes.{Idle};
ghost use Rattle.proc_core.specs.Procs.{Holds};
ghost use Rattle.proc_core.specs.Closing.{AreAll, AreOf, IsHistoryOf};
ghost use Rattle.proc_core.specs.Joining.{Owns, Joined};

use crate::answers::Closed;
use crate::kept::Kept;
use crate::loader::Loader;
use crate::proc::Proc;
use turn_lock::Pass;

impl Loader {
    // Joins the passes of the others, from the last one down, into that of the first. Each process is taken apart before its
    // pass is joined: a pass that was joined has seen more than the process's view stands for.
    fn gather(&self, first: Proc, rest: Vec<Proc>) -> Pass<Kept>
        requires { Owns self.now first rest.items }
        ensures lock { result.table_id ≡ self.now }
        ensures idle { Idle result.me }
        ensures joined { Joined first rest.items 0 result.me.0 }
        ensures first { Holds first }
    {
        let Proc {
            pass: mut into,
            view: _,
        } = first;
        let mut rest = rest;
        while let Some(last) = rest.pop() {
            let Proc { pass, view: _ } = last;
            self.lock.join(&mut into, pass);
        }
        into
    }

    /// Ends the loader, with all its processes in the order of their numbers, and gives its history. It waits for nobody
    /// and takes no memory.
    pub fn close(self, procs: Vec<Proc>) -> Closed
        requires loader { AreOf self procs.items }
        requires all { AreAll procs.items }
        ensures { IsHistoryOf procs.items result }
    {
        let mut rest = procs;
        let first = rest.remove(0);
        let pass = self.gather(first, rest);
        let Loader { lock } = self;
        let Kept { board } = lock.close(pass);
        Closed::of(board.into_history())
    }
}
