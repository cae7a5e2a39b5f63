//! One command of a script: by an entry of the history, or with a line.

ghost use Rattle.std.specs.Prelude.{◌≡◌, ◌<◌, IfOk, length};
ghost use Rattle.load_model.specs.declared.commands.Command.TheVariants as commands;
ghost use Rattle.session_model.specs.Bounds.{IsCommand};
ghost use Rattle.proc_core.specs.declared.deeds.TheConstants.{MAX_TICKETS};
ghost use Rattle.proc_core.specs.Procs.{IsOf};
ghost use Rattle.run_core.specs.Carrying.{IsCarriedOut, IsLineOf, has_entry};

use load_model::{Command, Place, Refusal, Reply};
use lx_types::{Fail, NoMemory, Seq};
use page_fix::Steps;
use proc_core::{Done, Loader, Proc};
use std::alloc::Global;
use std::marker::Brand;
use std::sync::Wait;
use std::sync::ledger::{Blank, Ledger};

// Want of a place and an initialisation that failed are told by an entry.
fn has_entry(refusal: Refusal) -> bool
    ensures { result ≡ has_entry refusal }
{
    matches!(
        refusal,
        Refusal::ArenaFull { .. } | Refusal::InitFailed { .. }
    )
}

// The reply of a command's line, where it is one.
fn line_of(answer: Result<Done, Fail<Refusal>>) -> Result<Option<Reply>, NoMemory>
    ensures { IfOk result (λ reply. IsLineOf answer reply) }
{
    match answer {
        Ok(_) => Ok(None),
        Err(Fail::Said(refusal)) => {
            if has_entry(refusal) {
                Ok(None)
            } else {
                Ok(Some(Reply::Refused(refusal)))
            }
        }
        Err(Fail::NoMemory) => Err(NoMemory),
    }
}

// Room for so many bytes.
fn room(alloc: Global, len: u32) -> Result<Vec<u8>, NoMemory>
    ensures { IfOk result (λ bytes. length bytes.items ≡ len) }
{
    Ok(vec![in alloc; 0; len as usize]?)
}

fn peek(alloc: Global, proc: &Proc, place: &Place) -> Result<Option<Reply>, NoMemory>
    ensures { IfOk result (λ reply. IsCarriedOut proc.now proc.now (commands.Peek place.now) reply) }
{
    if place.lies_in_page() {
        return match proc.peek_in_place(place) {
            Ok(bytes) => Ok(Some(Reply::Bytes(Seq::from_vec(Vec::from_slice(alloc, bytes)?)))),
            Err(refusal) => Ok(Some(Reply::Refused(refusal))),
        };
    }
    let mut bytes = room(alloc, place.len)?;
    match proc.peek(place, bytes.as_mut_slice()) {
        Ok(()) => Ok(Some(Reply::Bytes(Seq::from_vec(bytes)))),
        Err(refusal) => Ok(Some(Reply::Refused(refusal))),
    }
}

// A touch, whose steps nobody counts.
fn touch<R: Wait, L: Ledger>(
    rt: &R,
    alloc: Global,
    loader: &Loader,
    proc: &mut Proc,
    place: &Place,
    blank: Blank,
) -> Result<Option<Reply>, NoMemory>
    requires name { blank.name ≡ L.name }
    requires parts { blank.parts ≡ L.parts }
    requires some { 0 < blank.parts }
    requires loader { IsOf loader.now proc.old }
    requires few { proc.old.known.drawn < MAX_TICKETS }
    ensures loader { IsOf loader.now proc.new }
    ensures carried { IfOk result (λ reply. IsCarriedOut proc.old proc.new (commands.Touch place.now) reply) }
{
    let mut steps: Steps<L> = Steps::of(blank);
    match proc.touch(rt, alloc, loader, place, &mut steps) {
        Ok(()) => Ok(Some(Reply::Fine)),
        Err(Fail::Said(refusal)) => Ok(Some(Reply::Refused(refusal))),
        Err(Fail::NoMemory) => Err(NoMemory),
    }
}

/// Carries out a command, and gives the reply of its line. What has an entry of the history is no line: what was done, want
/// of a place, and an initialisation that failed.
pub fn answer<R: Wait>(
    rt: &R,
    alloc: Global,
    loader: &Loader,
    proc: &mut Proc,
    command: &Command,
) -> Result<Option<Reply>, NoMemory>
    requires loader { IsOf loader.now proc.old }
    requires command { IsCommand command.now }
    requires few { proc.old.known.drawn < MAX_TICKETS }
    ensures loader { IsOf loader.now proc.new }
    ensures carried { IfOk result (λ reply. IsCarriedOut proc.old proc.new command.now reply) }
{
    match command {
        Command::Touch(place) => {
            touch::<R, Brand>(rt, alloc, loader, proc, place, Blank::new(1))
        }
        Command::Peek(place) => peek(alloc, proc, place),
        Command::Query(module, key) => match proc.query(module, key) {
            Ok(address) => Ok(Some(Reply::Address(address))),
            Err(refusal) => Ok(Some(Reply::Refused(refusal))),
        },
        Command::GetRes(module, ty, id) => match proc.getres(module, *ty, *id) {
            Ok(spot) => Ok(Some(Reply::Spot(spot))),
            Err(refusal) => Ok(Some(Reply::Refused(refusal))),
        },
        _ => line_of(proc.act(rt, alloc, loader, command)),
    }
}
