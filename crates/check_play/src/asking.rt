//! What processes may ask, and what is done then.

ghost use Rattle.std.specs.Prelude.{◌≡◌, ◌↔◌, None, true, IfOk, OnErr, IsTrue, length};
ghost use Rattle.load_model.specs.declared.commands.Ask.TheVariants as asks;
ghost use Rattle.load_model.specs.Asks.{may_ask};
ghost use Rattle.load_model.specs.Step.{FitsPlace};
ghost use Rattle.load_model.specs.ViewAnswers.{view_refusal};
ghost use Rattle.load_core.specs.BoardState.{state_of};
ghost use Rattle.process_view.specs.ProcessViews.{StandsAt, at_front};
ghost use Rattle.process_view.specs.Plans.{HasEntry};
ghost use Rattle.check_play.specs.Standing.{IsStanding, StandsShown, IsEntryDone, made_entry};

use crate::standing::{AttachedResidence, Standing};
use check_core::is_last;
use load_core::Board;
use load_model::{Command, Entry};
use lx_types::{Fail, NoMemory, PageId};
use page_fix::is_fixable;
use play_laws::faults_by_pages;
use process_view::View;
use std::alloc::Global;

/// Whether the process of a view may make a page of a residence present, whether or not the page had its fault.
pub fn may_fault(
    standing: &Standing,
    view: &View,
    residence: AttachedResidence,
    page: PageId,
) -> bool
    requires standing { IsStanding standing.now }
    requires stands { StandsShown standing.now.board view.now }
    ensures { result ≡ may_ask standing.now.board.library (state_of standing.now.board) view.now.holding.pid (asks.Fault residence.serial residence.«module» page) }
{
    faults_by_pages();
    let lib = standing.board.library();
    if view.is_ended() {
        return false;
    }
    if residence.module >= lib.len() {
        return false;
    }
    if !is_fixable(lib.module(residence.module), page) {
        return false;
    }
    standing.is_attached(view.pid(), residence.serial, residence.module)
}

// Carries out a command that has an entry and that the view does not refuse. What is not done has its entry all the same.
fn act(alloc: Global, board: &mut Board, view: &mut View, command: &Command) -> Result<(), NoMemory>
    requires stands { StandsShown board.old view.old }
    requires accepted { view_refusal view.old.library view.old.holding command.now ≡ None }
    requires entry { HasEntry command.now }
    requires fits { FitsPlace command.now }
    ensures { IfOk result (λ _. IsEntryDone board.old board.new view.old view.new command.now) }
{
    view.follow(board);
    match view.act(alloc, board, command) {
        Err(Fail::NoMemory) => Err(NoMemory),
        _ => Ok(()),
    }
}

/// Carries out a command that has an entry and that the view does not refuse, and tells whether its entry is the one that is told.
/// Where an object has no place, or an initialisation fails, that is its entry.
pub fn makes_entry(
    alloc: Global,
    board: &mut Board,
    view: &mut View,
    command: &Command,
    told: &Entry,
) -> Result<bool, NoMemory>
    requires stands { StandsShown board.old view.old }
    requires accepted { view_refusal view.old.library view.old.holding command.now ≡ None }
    requires entry { HasEntry command.now }
    requires fits { FitsPlace command.now }
    ensures { IfOk result (λ is. (done : IsEntryDone board.old board.new view.old view.new command.now) × (IsTrue is ↔ (made_entry board.old view.old done ≡ told.now))) }
{
    act(alloc, board, view, command)?;
    Ok(is_last(board.history(), told))
}
