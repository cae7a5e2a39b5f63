//! What a process answers to a command.

ghost use Rattle.std.specs.Prelude.{◌≡◌, ◌<◌, IfOk, IsTrue, length};
ghost use Rattle.load_model.specs.Step.{FitsPlace};
ghost use Rattle.process_view.specs.Plans.{HasEntry};
ghost use Rattle.proc_core.specs.Procs.{IsOf};

use load_model::{Command, Place, Refusal, Reply};
use lx_types::{Fail, NoMemory, Seq};
use page_fix::Steps;
use proc_core::{Loader, Proc};
use std::alloc::Global;
use std::marker::Brand;
use std::sync::Wait;
use std::sync::ledger::{Blank, Ledger};

/// The reply of a call that has an entry of the history where it is not refused: what has one is told there.
pub fn line_of<T: Drop>(answer: Result<T, Fail<Refusal>>) -> Result<Option<Reply>, NoMemory> {
    match answer {
        Ok(_) => Ok(None),
        Err(Fail::Said(Refusal::ArenaFull { .. } | Refusal::InitFailed { .. })) => Ok(None),
        Err(Fail::Said(refusal)) => Ok(Some(Reply::Refused(refusal))),
        Err(Fail::NoMemory) => Err(NoMemory),
    }
}

/// Whether a command has an entry where it is carried out, and as many bytes as its place is long.
pub fn is_deed(command: &Command) -> bool
    ensures { IsTrue result → HasEntry command.now × FitsPlace command.now }
{
    match command {
        Command::Start(_) => true,
        Command::Load(_) => true,
        Command::Free(_) => true,
        Command::Shared(_) => true,
        Command::Write(place, bytes) => bytes.as_slice().len() == place.len as usize,
        Command::Debug(place, bytes) => bytes.as_slice().len() == place.len as usize,
        Command::Exit => true,
        _ => false,
    }
}

/// Room for so many bytes.
pub fn room(alloc: Global, len: u32) -> Result<Vec<u8>, NoMemory>
    ensures { IfOk result (λ bytes. length bytes.items ≡ len) }
{
    Ok(vec![in alloc; 0; len as usize]?)
}

fn peek(alloc: Global, proc: &Proc, place: &Place) -> Result<Option<Reply>, NoMemory> {
    let mut bytes = room(alloc, place.len)?;
    match proc.peek(place, bytes.as_mut_slice()) {
        Ok(()) => Ok(Some(Reply::Bytes(Seq::from_vec(bytes)))),
        Err(refusal) => Ok(Some(Reply::Refused(refusal))),
    }
}

// A touch, whose steps nobody counts.
fn touch<R: Wait, L: Ledger>(
    rt: &R,
    alloc: Global,
    loader: &Loader,
    proc: &mut Proc,
    place: &Place,
    blank: Blank,
) -> Result<Option<Reply>, NoMemory>
    requires name { blank.name ≡ L.name }
    requires parts { blank.parts ≡ L.parts }
    requires some { 0 < blank.parts }
    requires loader { IsOf loader.now proc.old }
    ensures { IsOf loader.now proc.new }
{
    let mut steps: Steps<L> = Steps::of(blank);
    match proc.touch(rt, alloc, loader, place, &mut steps) {
        Ok(()) => Ok(Some(Reply::Fine)),
        Err(Fail::Said(refusal)) => Ok(Some(Reply::Refused(refusal))),
        Err(Fail::NoMemory) => Err(NoMemory),
    }
}

/// Carries out a command, and gives the reply where it has no entry of the history. Commands of which no step is made are
/// passed over, and so is a write of more or fewer bytes than its place is long.
pub fn answer<R: Wait>(
    rt: &R,
    alloc: Global,
    loader: &Loader,
    proc: &mut Proc,
    command: &Command,
) -> Result<Option<Reply>, NoMemory>
    requires { IsOf loader.now proc.old }
    ensures { IsOf loader.now proc.new }
{
    if is_deed(command) {
        return line_of(proc.act(rt, alloc, loader, command));
    }
    match command {
        Command::Touch(place) => {
            touch::<R, Brand>(rt, alloc, loader, proc, place, Blank::new(1))
        }
        Command::Peek(place) => peek(alloc, proc, place),
        _ => Ok(None),
    }
}
