//! What a view answers by itself, and whether a reply is that.

ghost use Rattle.std.specs.Prelude.{◌≡◌, ◌↔◌, Some, IfOk, IsTrue};
ghost use Rattle.load_model.specs.declared.commands.Command.TheVariants as commands;
ghost use Rattle.play_laws.specs.ViewAnswers.{view_answer};

use check_core::Same;
use load_model::{Command, Place, Reply};
use lx_types::{EntryKey, Name, NoMemory, Seq};
use process_view::View;
use std::alloc::Global;

// What a peek at a place is answered. It takes as much memory as the bytes that are read.
fn peeked(alloc: Global, view: &View, place: &Place) -> Result<Reply, NoMemory>
    ensures { IfOk result (λ reply. view_answer view.now.library view.now.holding (commands.Peek place.now) ≡ Some reply) }
{
    let mut bytes = vec![in alloc; 0; place.len as usize]?;
    match view.peek(place, bytes.as_mut_slice()) {
        Ok(()) => Ok(Reply::Bytes(Seq::from_vec(bytes))),
        Err(refusal) => Ok(Reply::Refused(refusal)),
    }
}

// What is answered who asks for an entry point.
fn queried(view: &View, module: &Name, key: &EntryKey) -> Reply
    ensures { view_answer view.now.library view.now.holding (commands.Query «module».now key.now) ≡ Some result }
{
    match view.query(module, key) {
        Ok(address) => Reply::Address(address),
        Err(refusal) => Reply::Refused(refusal),
    }
}

// What is answered who asks for a resource.
fn located(view: &View, module: &Name, key: (u16, u16)) -> Reply
    ensures { view_answer view.now.library view.now.holding (commands.GetRes «module».now key.0 key.1) ≡ Some result }
{
    match view.getres(module, key.0, key.1) {
        Ok(spot) => Reply::Spot(spot),
        Err(refusal) => Reply::Refused(refusal),
    }
}

/// What a view answers to a command by itself: its refusal; or its reply, where it does not refuse it; and nothing where there is an
/// entry for it. A peek that is not refused takes as much memory as the bytes that are read.
pub fn answer_of(alloc: Global, view: &View, command: &Command) -> Result<Option<Reply>, NoMemory>
    ensures { IfOk result (λ reply. view_answer view.now.library view.now.holding command.now ≡ reply) }
{
    if let Some(refusal) = view.refusal(command) {
        return Ok(Some(Reply::Refused(refusal)));
    }
    match command {
        Command::Touch(_) => Ok(Some(Reply::Fine)),
        Command::Peek(place) => Ok(Some(peeked(alloc, view, place)?)),
        Command::Query(module, key) => Ok(Some(queried(view, module, key))),
        Command::GetRes(module, ty, id) => Ok(Some(located(view, module, (*ty, *id)))),
        Command::Start(_)
        | Command::Load(_)
        | Command::Free(_)
        | Command::Shared(_)
        | Command::Write(..)
        | Command::Debug(..)
        | Command::Exit => Ok(None),
    }
}

/// Whether a reply is what a view answers to a command by itself.
pub fn is_reply(
    alloc: Global,
    view: &View,
    command: &Command,
    told: &Reply,
) -> Result<bool, NoMemory>
    ensures { IfOk result (λ is. IsTrue is ↔ (view_answer view.now.library view.now.holding command.now ≡ Some told.now)) }
{
    match answer_of(alloc, view, command)? {
        Some(reply) => Ok(reply.is_same(told)),
        None => Ok(false),
    }
}
