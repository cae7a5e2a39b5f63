//! What a start or a load comes to: want of a place, an initialisation that fails, or what is attached.

ghost use Rattle.std.specs.Prelude.{◌≡◌, true, IfOk, OnOk, OnErr, Some};
ghost use Rattle.lx_types.specs.Answers.{Answers};
ghost use Rattle.load_model.specs.State.{pids, is_among};
ghost use Rattle.load_model.specs.declared.commands.Ask.TheVariants as asks;
ghost use Rattle.load_core.specs.BoardState.{MayAsk, Adds};
ghost use Rattle.load_core.specs.Told.{IsLoaded};
ghost use Rattle.load_core.specs.Enters.{IsArrival, IsUndoing, IsWithoutRoom, failing_of};

use crate::answers::Loaded;
use crate::board::Board;
use load_model::{Calls, Deed, Entry, How, Leavers, Newcomers};
use lx_types::{Fail, NoMemory};
use residence_table::{Entering, Failure, NoRoom, failing_module, gone_again};

/// A start or a load: by which process, of which module.
#[derive(Clone, Copy)]
pub struct Entrance {
    pub pid: u32,
    pub module: u32,
    pub how: How,
}

/// What a start or a load attaches, the residences that begin with it, how many serial numbers are given then, and
/// its calls where no initialisation fails.
#[derive(Drop)]
pub struct Arrival {
    pub joined: Vec<u32>,
    pub fresh: Newcomers,
    pub serials: u64,
    pub calls: Calls,
}

/// What a start or a load calls whose initialisation fails, and the residences that end again.
#[derive(Drop)]
pub struct Undoing {
    pub calls: Calls,
    pub gone: Leavers,
}

impl Board {
    // What a start or a load attaches. Nothing changes. More serial numbers than 64 bits hold are want of memory: an
    // entry gives 64 of them at most, so no history that has a place in memory comes to them.
    fn arrival(&self, at: Entrance) -> Result<Arrival, Fail<NoRoom>>
        requires process { is_among pids at.pid ≡ true }
        requires may { MayAsk self.now at.pid (asks.Enter at.how at.«module») }
        ensures { Answers result (IsArrival self.now at) (IsWithoutRoom self.now at) }
    {
        lx_model::order_is_reach();
        load_model::residents_are_reached();
        mod_refs::legal_counts_are_kept();
        residence_table::legal_residences_stand();
        let gained = self.refs.gain(self.alloc, &self.lib, at.pid, at.module)?;
        let given = self.keeper.given();
        let Some(serials) = given.checked_add(gained.fresh.len() as u64) else {
            return Err(Fail::NoMemory);
        };
        let placed = self
            .table
            .place(self.alloc, &self.lib, given, &gained.fresh);
        let fresh = match placed {
            Ok(fresh) => fresh,
            Err(why) => return Err(why),
        };
        let entering = Entering {
            how: at.how,
            module: at.module,
            joined: &gained.joined,
            fresh: fresh.as_slice(),
        };
        let calls = self.table.entering_calls(self.alloc, &self.lib, &entering)?;
        Ok(Arrival {
            joined: gained.joined,
            fresh,
            serials,
            calls,
        })
    }

    // Nothing is loaded, since an object has no place.
    fn refuse(&mut self, at: Entrance, none: NoRoom) -> Result<Loaded, NoMemory>
        requires process { is_among pids at.pid ≡ true }
        requires may { MayAsk self.old at.pid (asks.Enter at.how at.«module») }
        requires none { IsWithoutRoom self.old at none }
        ensures entry { OnOk result (Adds self.old self.new at.pid (asks.Enter at.how at.«module»)) }
        ensures answer { IfOk result (IsLoaded self.old self.new at.pid at.how at.«module») }
        ensures err { OnErr result (self.new ≡ self.old) }
    {
        load_model::residences_stay();
        self.history.reserve(1)?;
        self.history.push_reserved(Entry {
            pid: at.pid,
            deed: Deed::Full {
                how: at.how,
                module: at.module,
                of: none.of,
                object: none.object.object,
                size: none.object.size,
            },
        });
        Ok(Loaded::Full {
            of: none.of,
            object: none.object.object,
            size: none.object.size,
        })
    }

    // What is called and what ends where the initialisation of module `by` fails.
    fn undoing(&self, at: Entrance, by: u32, arrival: &Arrival) -> Result<Undoing, NoMemory>
        requires may { MayAsk self.now at.pid (asks.Enter at.how at.«module») }
        requires arrival { IsArrival self.now at arrival.now }
        requires by { failing_of self.now at arrival.now ≡ Some by }
        ensures { IfOk result (IsUndoing self.now at by arrival.now) }
    {
        lx_model::order_is_reach();
        load_model::failed_loads_leave_nothing();
        let entering = Entering {
            how: at.how,
            module: at.module,
            joined: &arrival.joined,
            fresh: arrival.fresh.as_slice(),
        };
        let failure = Failure {
            pid: at.pid,
            by,
            pairs: &self.failing,
            calls: arrival.calls.as_slice(),
        };
        let calls = self
            .table
            .failed_calls(self.alloc, &self.lib, &entering, &failure)?;
        let gone = gone_again(self.alloc, arrival.fresh.as_slice())?;
        Ok(Undoing { calls, gone })
    }

    // Nothing is loaded, since the initialisation of module `by` fails: what began with it ends with it.
    fn fail(&mut self, at: Entrance, by: u32, arrival: Arrival) -> Result<Loaded, NoMemory>
        requires process { is_among pids at.pid ≡ true }
        requires may { MayAsk self.old at.pid (asks.Enter at.how at.«module») }
        requires arrival { IsArrival self.old at arrival }
        requires by { failing_of self.old at arrival ≡ Some by }
        ensures entry { OnOk result (Adds self.old self.new at.pid (asks.Enter at.how at.«module»)) }
        ensures answer { IfOk result (IsLoaded self.old self.new at.pid at.how at.«module») }
        ensures err { OnErr result (self.new ≡ self.old) }
    {
        load_model::residences_stay();
        let undoing = self.undoing(at, by, &arrival)?;
        self.history.reserve(1)?;
        self.keeper.pass(arrival.serials);
        self.history.push_reserved(Entry {
            pid: at.pid,
            deed: Deed::Failed {
                how: at.how,
                module: at.module,
                by,
                fresh: arrival.fresh,
                calls: undoing.calls,
                gone: undoing.gone,
            },
        });
        Ok(Loaded::Failed { by })
    }

    // The module whose initialisation fails, if one does.
    fn failing_in(&self, at: Entrance, arrival: &Arrival) -> Option<u32>
        requires { IsArrival self.now at arrival.now }
        ensures { result ≡ failing_of self.now at arrival.now }
    {
        load_model::failed_loads_leave_nothing();
        failing_module(&self.failing, at.pid, arrival.calls.as_slice())
    }

    /// Process `pid` starts the program `m` (DosExecPgm) or loads the library `m` (DosLoadModule).
    pub fn load(&mut self, pid: u32, m: u32, how: How) -> Result<Loaded, NoMemory>
        requires process { is_among pids pid ≡ true }
        requires may { MayAsk self.old pid (asks.Enter how m) }
        ensures entry { OnOk result (Adds self.old self.new pid (asks.Enter how m)) }
        ensures answer { IfOk result (IsLoaded self.old self.new pid how m) }
        ensures err { OnErr result (self.new ≡ self.old) }
    {
        let at = Entrance {
            pid,
            module: m,
            how,
        };
        match self.arrival(at) {
            Ok(arrival) => match self.failing_in(at, &arrival) {
                Some(by) => self.fail(at, by, arrival),
                None => self.enter(at, arrival),
            },
            Err(Fail::Said(none)) => self.refuse(at, none),
            Err(Fail::NoMemory) => Err(NoMemory),
        }
    }
}
