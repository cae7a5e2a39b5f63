//! What leaves with a free or an exit.

ghost use Rattle.std.specs.Prelude.{◌≡◌, true, IfOk, OnOk, OnErr};
ghost use Rattle.load_model.specs.State.{pids, is_among};
ghost use Rattle.load_model.specs.declared.commands.Ask.TheVariants as asks;
ghost use Rattle.load_core.specs.BoardState.{MayAsk, Adds};
ghost use Rattle.load_core.specs.Leaves.{asked_by, leaving_deed, IsDeparture};

use crate::board::Board;
use load_model::{Calls, Deed, Entry, Leavers};
use lx_types::NoMemory;
use mod_refs::Leaving;

/// What a free or an exit calls, and the residences that end with it, with their modules.
#[derive(Drop)]
pub struct Departure {
    pub calls: Calls,
    pub gone: Leavers,
    pub modules: Vec<u32>,
}

// What a process does that gives this up.
fn deed_for(what: Leaving, calls: Calls, gone: Leavers) -> Deed
    ensures { result ≡ leaving_deed what calls gone }
{
    match what {
        Leaving::One(module) => Deed::Free {
            module,
            calls,
            gone,
        },
        Leaving::All => Deed::Exit { calls, gone },
    }
}

impl Board {
    // What leaves once a process gives this up. Nothing changes.
    fn departure(&self, pid: u32, what: Leaving) -> Result<Departure, NoMemory>
        requires process { is_among pids pid ≡ true }
        requires may { MayAsk self.now pid (asked_by what) }
        ensures { IfOk result (IsDeparture self.now pid what) }
    {
        lx_model::order_is_reach();
        load_model::reached_is_fit();
        mod_refs::legal_counts_are_kept();
        let lost = self.refs.lose(self.alloc, &self.lib, pid, what)?;
        let leaving = residence_table::Leaving {
            left: &lost.left,
            gone: &lost.gone,
        };
        let calls = self.table.leaving_calls(self.alloc, &self.lib, &leaving)?;
        let gone = self.table.gone(self.alloc, &lost.gone)?;
        Ok(Departure {
            calls,
            gone,
            modules: lost.gone,
        })
    }

    // A process gives this up.
    fn leave(&mut self, pid: u32, what: Leaving) -> Result<(), NoMemory>
        requires process { is_among pids pid ≡ true }
        requires may { MayAsk self.old pid (asked_by what) }
        ensures entry { OnOk result (Adds self.old self.new pid (asked_by what)) }
        ensures err { OnErr result (self.new ≡ self.old) }
    {
        lx_model::order_is_reach();
        load_model::reached_is_fit();
        load_model::residences_stay();
        mod_refs::legal_counts_are_kept();
        let departure = self.departure(pid, what)?;
        self.history.reserve(1)?;
        self.refs.detach(&self.lib, pid, what);
        self.table.end(&departure.modules);
        let deed = deed_for(what, departure.calls, departure.gone);
        self.history.push_reserved(Entry { pid, deed });
        Ok(())
    }

    /// Process `pid` gives up one load of module `m` (DosFreeModule).
    pub fn free(&mut self, pid: u32, m: u32) -> Result<(), NoMemory>
        requires process { is_among pids pid ≡ true }
        requires may { MayAsk self.old pid (asks.Free m) }
        ensures entry { OnOk result (Adds self.old self.new pid (asks.Free m)) }
        ensures err { OnErr result (self.new ≡ self.old) }
    {
        self.leave(pid, Leaving::One(m))
    }

    /// Process `pid` ends (DosExit).
    pub fn exit(&mut self, pid: u32) -> Result<(), NoMemory>
        requires process { is_among pids pid ≡ true }
        requires may { MayAsk self.old pid asks.Exit }
        ensures entry { OnOk result (Adds self.old self.new pid asks.Exit) }
        ensures err { OnErr result (self.new ≡ self.old) }
    {
        self.leave(pid, Leaving::All)
    }
}
