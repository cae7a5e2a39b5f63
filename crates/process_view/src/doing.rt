//! What a view does with a board, where it does not refuse it.

ghost use Rattle.std.specs.Prelude.{◌≡◌, [], None, true, OnOk, OnErr};
ghost use Rattle.load_model.specs.declared.commands.Command.{Command};
ghost use Rattle.load_model.specs.State.{pids, is_among};
ghost use Rattle.load_model.specs.Step.{FitsPlace};
ghost use Rattle.load_model.specs.ViewAnswers.{view_refusal};
ghost use Rattle.load_core.specs.BoardState.{MayAsk, Adds};
ghost use Rattle.load_core.specs.Leaves.{asked_by};
ghost use Rattle.process_view.specs.declared.plans.Plan.TheVariants as plans;
ghost use Rattle.process_view.specs.ProcessViews.{StandsAt};
ghost use Rattle.process_view.specs.Plans.{IsPlan, HasEntry};
ghost use Rattle.process_view.specs.Deeds.{IsDone, reading};

use crate::plans::Plan;
use crate::view::View;
use load_core::{Board, Loaded};
use load_model::{
    Command, How, Refusal, counts_are_small, reached_is_fit, residences_stay, views_stand,
};
use lx_model::order_is_reach;
use lx_types::{Bytes, Fail, NoMemory, Seq};
use mod_refs::{Leaving, loads_are_counted};
use std::alloc::Global;

// No bytes were read.
fn read_nothing(alloc: Global, done: Result<(), Fail<Refusal>>) -> Result<Bytes, Fail<Refusal>>
    ensures { result ≡ reading [] done }
{
    match done {
        Ok(()) => Ok(Seq::new(alloc)),
        Err(fail) => Err(fail),
    }
}

// The entry of a process that gives this up. Nothing is done without memory.
fn add_leave(board: &mut Board, pid: u32, what: Leaving) -> Result<(), NoMemory>
    requires process { is_among pids pid ≡ true }
    requires may { MayAsk board.old pid (asked_by what) }
    ensures entry { OnOk result (Adds board.old board.new pid (asked_by what)) }
    ensures err { OnErr result (board.new ≡ board.old) }
{
    match what {
        Leaving::One(m) => board.free(pid, m),
        Leaving::All => board.exit(pid),
    }
}

impl View {
    // Starts a program, or loads a library. Where an object has no place, or an initialisation fails, the entry tells it,
    // and it is the refusal. Nothing is done without memory.
    fn enter(
        &mut self,
        alloc: Global,
        board: &mut Board,
        how: How,
        m: u32,
    ) -> Result<(), Fail<Refusal>>
        requires stands { StandsAt board.old self.old }
        requires planned { (command : Command) × IsPlan self.old command (plans.Enter how m) }
        ensures { (command : Command) → IsPlan self.old command (plans.Enter how m)
            → IsDone board.old board.new self.old self.new command (reading [] result) }
    {
        views_stand();
        residences_stay();
        order_is_reach();
        loads_are_counted();
        counts_are_small();
        reached_is_fit();
        board.history();
        self.library().len();
        let pid = self.pid();
        let joining = self.joining(alloc, m)?;
        let rows = self.rows_for(alloc, &joining)?;
        self.reserve_residences(joining.len())?;
        match board.load(pid, m, how)? {
            Loaded::Done { joined } => {
                self.keep_joined(joined, rows);
                self.count_in(how, m);
                self.follow(board);
                Ok(())
            }
            Loaded::Full { of, object, size } => {
                self.follow(board);
                Err(Fail::Said(Refusal::ArenaFull {
                    number: self.front(),
                    of,
                    object,
                    size,
                }))
            }
            Loaded::Failed { by } => {
                self.follow(board);
                Err(Fail::Said(Refusal::InitFailed {
                    number: self.front(),
                    by,
                }))
            }
        }
    }

    // Gives up one load of a library, or all and ends. Nothing is done without memory.
    fn leave(&mut self, board: &mut Board, what: Leaving) -> Result<(), Fail<Refusal>>
        requires stands { StandsAt board.old self.old }
        requires planned { (command : Command) × IsPlan self.old command (plans.Leave what) }
        ensures { (command : Command) → IsPlan self.old command (plans.Leave what)
            → IsDone board.old board.new self.old self.new command (reading [] result) }
    {
        views_stand();
        residences_stay();
        loads_are_counted();
        order_is_reach();
        board.history();
        let pid = self.pid();
        add_leave(board, pid, what)?;
        self.give_up(what);
        self.follow(board);
        Ok(())
    }

    /// Carries out a command that has an entry and that the view does not refuse, and gives the bytes that were read: those of
    /// a shared read, else none. Where an object has no place, or an initialisation fails, the entry tells it, and it is the
    /// refusal. Nothing is done without memory.
    pub fn act(
        &mut self,
        alloc: Global,
        board: &mut Board,
        command: &Command,
    ) -> Result<Bytes, Fail<Refusal>>
        requires stands { StandsAt board.old self.old }
        requires accepted { view_refusal self.old.library self.old.holding command.now ≡ None }
        requires entry { HasEntry command.now }
        requires fits { FitsPlace command.now }
        ensures { IsDone board.old board.new self.old self.new command.now result }
    {
        match self.plan(command) {
            Ok(Plan::Enter(how, m)) => read_nothing(alloc, self.enter(alloc, board, how, m)),
            Ok(Plan::Leave(what)) => read_nothing(alloc, self.leave(board, what)),
            Ok(Plan::Put(k, place, bytes)) => {
                read_nothing(alloc, self.put(alloc, board, k, place, bytes))
            }
            Ok(Plan::Read(k, place)) => self.read(alloc, board, k, place),
            Ok(Plan::Steady) | Err(_) => unreachable!(),
        }
    }
}
