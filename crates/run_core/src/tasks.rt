//! The scripts in work.

ghost use Rattle.std.specs.Prelude.{◌≡◌, ◌∷◌, ◌++◌, ◌+◌, ◌<◌, ◌≤◌, [], List, ℕ, OnOk, false};
ghost use Rattle.load_model.specs.declared.commands.Command.{Command};
ghost use Rattle.load_model.specs.Modules.{Library};
ghost use Rattle.load_model.specs.State.{Failing};
ghost use Rattle.session_model.specs.Bounds.{IsCommand};
ghost use Rattle.proc_core.specs.declared.deeds.TheConstants.{MAX_TICKETS};
ghost use Rattle.proc_core.specs.Procs.{IsOf};
ghost use Rattle.run_core.specs.Carrying.{Reached, line_with};
ghost use Rattle.run_core.specs.Tasks.{IsReady, IsRunOut, IsSameProcess};

use crate::answers::answer;
use load_model::{Command, Reply};
use lx_ports::Gate;
use lx_types::{NoMemory, Seq};
use proc_core::{Loader, Proc};
use session_model::{Commands, Line};
use std::alloc::Global;
use std::mem;
use std::sync::Wait;

/// The most turns that one command takes: one, or one for each page of a touch.
pub const MAX_TURNS: u32 = 1_048_578;

/// A script in work: its number, its process, the commands that it has still to carry out, and its lines so far. It is
/// starved where it ended for want of memory.
#[derive(Drop)]
pub struct Task {
    pub number: u32,
    pub proc: Proc,
    pub commands: Commands,
    pub lines: Seq<Line>,
    pub starved: bool,
}

// A command that was answered without an entry is a line.
fn add_line(
    lines: &mut Seq<Line>,
    front: u64,
    command: Command,
    reply: Option<Reply>,
) -> Result<(), NoMemory>
    ensures { OnOk result (lines.new ≡ lines.old ++ line_with front command reply) }
{
    match reply {
        Some(reply) => lines.push(Line {
            front,
            command,
            reply,
        }),
        None => Ok(()),
    }
}

impl Task {
    // Carries out one command.
    fn carry_out<R: Wait>(
        &mut self,
        rt: &R,
        alloc: Global,
        loader: &Loader,
        command: Command,
    ) -> Result<(), NoMemory>
        requires loader { IsOf loader.now self.old.proc }
        requires command { IsCommand command }
        requires few { self.old.proc.known.drawn < MAX_TICKETS }
        ensures number { self.new.number ≡ self.old.number }
        ensures loader { IsOf loader.now self.new.proc }
        ensures same { OnOk result (IsSameProcess self.old.proc self.new.proc) }
        ensures turns { OnOk result (self.new.proc.known.drawn ≤ self.old.proc.known.drawn + MAX_TURNS) }
        ensures reached { OnOk result ((lib : Library) (failing : Failing) (done : List Command)
            → Reached lib failing self.old.proc self.old.lines done → Reached lib failing self.new.proc self.new.lines (done ++ command ∷ [])) }
    {
        script_laws::steady_lines_go_on();
        script_laws::entries_go_on();
        script_laws::touches_go_on();
        let _shown = self.proc.front();
        let reply = answer(rt, alloc, loader, &mut self.proc, &command)?;
        let front = self.proc.front();
        add_line(&mut self.lines, front, command, reply)
    }
}

/// Carries out a whole script, up to want of memory. The gate is asked before each command.
pub fn run_script<R: Wait, G: Gate>(
    rt: &R,
    alloc: Global,
    loader: &Loader,
    gate: &G,
    task: &mut Task,
)
    requires { IsReady loader.now task.old }
    ensures { IsRunOut loader.now task.old task.new }
{
    let commands = mem::replace(&mut task.commands, Seq::new(alloc));
    let mut index = 0;
    for command in commands.into_vec() {
        index += 1;
        gate.before(task.number, index);
        if task.carry_out(rt, alloc, loader, command).is_err() {
            task.starved = true;
            return;
        }
    }
}
