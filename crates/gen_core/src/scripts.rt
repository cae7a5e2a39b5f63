//! The scripts of the session.

ghost use Rattle.std.specs.Prelude.{◌≡◌, ◌≤◌, ◌++◌, ◌<◌, ◌^◌, IfOk, OnOk};
ghost use Rattle.std.specs.List.{flat_map};
ghost use Rattle.gen_model.specs.Sessions as sessions;

use crate::names::module_name;
use gen_model::{FRONT_LEN, PROCESSES, SEGMENT_LEN};
use load_model::{Command, Place};
use lx_types::{NoMemory, Seq};
use session_model::{Commands, Script};
use std::alloc::Global;

// The first bytes of the object of module `k`.
fn front_of(alloc: Global, len: u32, k: u32) -> Result<Place, NoMemory>
    ensures { IfOk result (λ place. place ≡ sessions.front_of len k) }
{
    Ok(Place {
        module: module_name(alloc, k)?,
        object: 1,
        offset: 0,
        len,
    })
}

// Touches module `k` and reads its front.
fn push_visit(alloc: Global, commands: &mut Commands, k: u32) -> Result<(), NoMemory>
    ensures { OnOk result (commands.new ≡ commands.old ++ sessions.visit k) }
{
    commands.push(Command::Touch(front_of(alloc, SEGMENT_LEN, k)?))?;
    commands.push(Command::Peek(front_of(alloc, FRONT_LEN, k)?))
}

fn push_visits(alloc: Global, commands: &mut Commands, count: u32) -> Result<(), NoMemory>
    requires { count ≤ 64 }
    ensures { OnOk result (commands.new ≡ commands.old ++ flat_map sessions.visit (sessions.numbers count)) }
{
    for before in 0..count {
        push_visit(alloc, commands, before + 1)?;
    }
    Ok(())
}

// The last module is loaded, all are visited, and it is given up.
fn commands(alloc: Global, count: u32) -> Result<Commands, NoMemory>
    requires { count ≤ 64 }
    ensures { IfOk result (λ commands. commands ≡ sessions.gen_commands count) }
{
    let mut commands = Seq::new(alloc);
    commands.push(Command::Load(module_name(alloc, count)?))?;
    push_visits(alloc, &mut commands, count)?;
    commands.push(Command::Free(module_name(alloc, count)?))?;
    Ok(commands)
}

/// The scripts, which do the same.
pub fn session_scripts(alloc: Global, count: u32) -> Result<Seq<Script>, NoMemory>
    requires { count ≤ 64 }
    ensures { IfOk result (λ scripts. scripts ≡ sessions.gen_scripts count) }
{
    let mut scripts = Seq::new(alloc);
    for before in 0..PROCESSES {
        scripts.push(Script {
            pid: before + 1,
            commands: commands(alloc, count)?,
        })?;
    }
    Ok(scripts)
}
