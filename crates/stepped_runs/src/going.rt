//! What one process does over a board, by its view alone.

ghost use Rattle.load_model.specs.Step.{FitsPlace};
ghost use Rattle.process_view.specs.Plans.{HasEntry};
ghost use Rattle.stepped_runs.specs.OneThread.{CanGoOn, WentOn};

use crate::answers::{is_deed, line_of, room};
use crate::mapping::touch;
use load_core::Board;
use load_model::{Command, Place, Reply};
use lx_types::{NoMemory, Seq};
use process_view::View;
use std::alloc::Global;
use std::marker::Brand;
use std::sync::Wait;
use std::sync::ledger::Blank;

// Carries out a command that has an entry.
fn act(
    alloc: Global,
    board: &mut Board,
    view: &mut View,
    command: &Command,
) -> Result<Option<Reply>, NoMemory>
    requires stands { CanGoOn board.old view.old }
    requires entry { HasEntry command.now }
    requires fits { FitsPlace command.now }
    ensures { WentOn board.old board.new view.old view.new }
{
    if let Some(refusal) = view.refusal(command) {
        return Ok(Some(Reply::Refused(refusal)));
    }
    view.follow(board);
    line_of(view.act(alloc, board, command))
}

fn peek(alloc: Global, view: &View, place: &Place) -> Result<Option<Reply>, NoMemory> {
    let mut bytes = room(alloc, place.len)?;
    match view.peek(place, bytes.as_mut_slice()) {
        Ok(()) => Ok(Some(Reply::Bytes(Seq::from_vec(bytes)))),
        Err(refusal) => Ok(Some(Reply::Refused(refusal))),
    }
}

/// Carries out a command, and gives the reply where it has no entry of the history. Commands of which no step is made are
/// passed over, and so is a write of more or fewer bytes than its place is long.
pub fn carry_out<R: Wait + AllocGlobal>(
    rt: &R,
    alloc: Global,
    board: &mut Board,
    view: &mut View,
    command: &Command,
) -> Result<Option<Reply>, NoMemory>
    requires { CanGoOn board.old view.old }
    ensures { WentOn board.old board.new view.old view.new }
{
    if is_deed(command) {
        return act(alloc, board, view, command);
    }
    match command {
        Command::Touch(place) => { touch::<R, Brand>(rt, board, view, place, Blank::new(1)) }
        Command::Peek(place) => peek(alloc, view, place),
        _ => Ok(None),
    }
}
