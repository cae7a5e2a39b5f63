//! Calls of a process that have an entry in the history. The view refuses first; then a turn is taken, and the board is given
//! back before the call answers.

ghost use Rattle.std.specs.Prelude.{◌≡◌, length, IfOk};
ghost use Rattle.load_model.specs.declared.commands.Command.{Command};
ghost use Rattle.load_model.specs.declared.commands.Command.TheVariants as commands;
ghost use Rattle.load_model.specs.Step.{FitsPlace};
ghost use Rattle.load_model.specs.ViewAnswers.{view_refusal};
ghost use Rattle.process_view.specs.Plans.{HasEntry};
ghost use Rattle.proc_core.specs.Procs.{IsOf};
ghost use Rattle.proc_core.specs.Calls.{IsAnswered, IsReadLast, call_refusal};
ghost use Rattle.proc_core.specs.Turns.{IsActed};

use crate::answers::{Acted, Done};
use crate::laws::entries_are_known;
use crate::loader::Loader;
use crate::proc::Proc;
use crate::turns::{give_back, take_turn, told_by};
use load_model::{Command, Place, Refusal};
use lx_types::{Bytes, Fail, Name, NoMemory};
use std::alloc::Global;
use std::sync::Wait;

/// Who has drawn so many tickets draws no more.
pub const MAX_TICKETS: u64 = 4_294_901_760;

// The place once more.
fn copy_place(alloc: Global, place: &Place) -> Result<Place, NoMemory>
    ensures { IfOk result (λ copy. copy ≡ place.now) }
{
    Ok(Place {
        module: place.module.copied(alloc)?,
        object: place.object,
        offset: place.offset,
        len: place.len,
    })
}

// The bytes once more.
fn copy_bytes(alloc: Global, bytes: &[u8]) -> Result<Bytes, NoMemory>
    ensures { IfOk result (λ copy. copy ≡ bytes.now) }
{
    Ok(Bytes::from_vec(Vec::from_slice(alloc, bytes)?))
}

impl Proc {
    // The first refusal of a call that may take a turn, where the view refuses so.
    pub(crate) fn first_refusal(&self, seen: Option<Refusal>) -> Option<Refusal>
        ensures { (command : Command) → seen ≡ view_refusal self.now.view.library self.now.view.holding command →
            result ≡ call_refusal self.now command }
    {
        if self.view.is_ended() {
            return Some(Refusal::Ended);
        }
        if self.pass.tickets() >= MAX_TICKETS {
            return Some(Refusal::Worn);
        }
        seen
    }

    // Carries out a command, and gives the bytes that were read with the number of its entry.
    fn carry_out<R: Wait>(
        &mut self,
        rt: &R,
        alloc: Global,
        loader: &Loader,
        command: &Command,
    ) -> Result<Acted, Fail<Refusal>>
        requires loader { IsOf loader.now self.old }
        requires entry { HasEntry command.now }
        requires fits { FitsPlace command.now }
        ensures loader { IsOf loader.now self.new }
        ensures answer { IsActed self.old self.new command.now result }
    {
        entries_are_known();
        if let Some(refusal) = self.first_refusal(self.view.refusal(command)) {
            return Err(Fail::Said(refusal));
        }
        let mut board = take_turn(rt, loader, &mut self.pass, &mut self.view);
        let done = self.view.act(alloc, &mut board, command);
        give_back(loader, &mut self.pass, board);
        told_by(&self.pass, done)
    }

    /// Carries out a command that has an entry. A write has as many bytes as its place is long.
    pub fn act<R: Wait>(
        &mut self,
        rt: &R,
        alloc: Global,
        loader: &Loader,
        command: &Command,
    ) -> Result<Done, Fail<Refusal>>
        requires loader { IsOf loader.now self.old }
        requires entry { HasEntry command.now }
        requires fits { FitsPlace command.now }
        ensures loader { IsOf loader.now self.new }
        ensures answer { IsAnswered self.old self.new command.now result }
    {
        match self.carry_out(rt, alloc, loader, command) {
            Ok(acted) => Ok(acted.done),
            Err(fail) => Err(fail),
        }
    }
}

// By name and place. Each copies what it is given into a command: whoever has a command calls `act`.
impl Proc {
    /// Starts a program (DosExecPgm).
    pub fn start<R: Wait>(
        &mut self,
        rt: &R,
        alloc: Global,
        loader: &Loader,
        name: &Name,
    ) -> Result<Done, Fail<Refusal>>
        requires loader { IsOf loader.now self.old }
        ensures loader { IsOf loader.now self.new }
        ensures answer { IsAnswered self.old self.new (commands.Start name.now) result }
    {
        self.front();
        let command = Command::Start(name.copied(alloc)?);
        self.act(rt, alloc, loader, &command)
    }

    /// Loads a library (DosLoadModule).
    pub fn load<R: Wait>(
        &mut self,
        rt: &R,
        alloc: Global,
        loader: &Loader,
        name: &Name,
    ) -> Result<Done, Fail<Refusal>>
        requires loader { IsOf loader.now self.old }
        ensures loader { IsOf loader.now self.new }
        ensures answer { IsAnswered self.old self.new (commands.Load name.now) result }
    {
        self.front();
        let command = Command::Load(name.copied(alloc)?);
        self.act(rt, alloc, loader, &command)
    }

    /// Gives up one load of a library (DosFreeModule).
    pub fn free<R: Wait>(
        &mut self,
        rt: &R,
        alloc: Global,
        loader: &Loader,
        name: &Name,
    ) -> Result<Done, Fail<Refusal>>
        requires loader { IsOf loader.now self.old }
        ensures loader { IsOf loader.now self.new }
        ensures answer { IsAnswered self.old self.new (commands.Free name.now) result }
    {
        self.front();
        let command = Command::Free(name.copied(alloc)?);
        self.act(rt, alloc, loader, &command)
    }

    /// Ends the process (DosExit).
    pub fn exit<R: Wait>(
        &mut self,
        rt: &R,
        alloc: Global,
        loader: &Loader,
    ) -> Result<Done, Fail<Refusal>>
        requires loader { IsOf loader.now self.old }
        ensures loader { IsOf loader.now self.new }
        ensures answer { IsAnswered self.old self.new commands.Exit result }
    {
        self.act(rt, alloc, loader, &Command::Exit)
    }

    /// Writes bytes, of which there are as many as the place is long.
    pub fn write<R: Wait>(
        &mut self,
        rt: &R,
        alloc: Global,
        loader: &Loader,
        place: &Place,
        bytes: &[u8],
    ) -> Result<Done, Fail<Refusal>>
        requires loader { IsOf loader.now self.old }
        requires fits { length bytes.now ≡ place.now.len }
        ensures loader { IsOf loader.now self.new }
        ensures answer { IsAnswered self.old self.new (commands.Write place.now bytes.now) result }
    {
        self.front();
        let command = Command::Write(copy_place(alloc, place)?, copy_bytes(alloc, bytes)?);
        self.act(rt, alloc, loader, &command)
    }

    /// Writes bytes to the process's own copy of code, as a debugger does (DosDebug).
    pub fn debug<R: Wait>(
        &mut self,
        rt: &R,
        alloc: Global,
        loader: &Loader,
        place: &Place,
        bytes: &[u8],
    ) -> Result<Done, Fail<Refusal>>
        requires loader { IsOf loader.now self.old }
        requires fits { length bytes.now ≡ place.now.len }
        ensures loader { IsOf loader.now self.new }
        ensures answer { IsAnswered self.old self.new (commands.Debug place.now bytes.now) result }
    {
        self.front();
        let command = Command::Debug(copy_place(alloc, place)?, copy_bytes(alloc, bytes)?);
        self.act(rt, alloc, loader, &command)
    }

    /// Reads bytes that all processes share into a buffer, which is as long as the place.
    pub fn read_shared<R: Wait>(
        &mut self,
        rt: &R,
        alloc: Global,
        loader: &Loader,
        place: &Place,
        into: &mut [u8],
    ) -> Result<Done, Fail<Refusal>>
        requires loader { IsOf loader.now self.old }
        requires fits { length into.old ≡ place.now.len }
        ensures loader { IsOf loader.now self.new }
        ensures answer { IsAnswered self.old self.new (commands.Shared place.now) result }
        ensures read { IfOk result (λ _. IsReadLast self.new into.new) }
    {
        self.front();
        let command = Command::Shared(copy_place(alloc, place)?);
        match self.carry_out(rt, alloc, loader, &command) {
            Ok(acted) => {
                into.copy_from_slice(acted.bytes.as_slice());
                Ok(acted.done)
            }
            Err(fail) => Err(fail),
        }
    }
}
