//! Which command of its script each process has to do next.

ghost use Rattle.std.specs.Prelude.{◌≡◌, ◌↔◌, ◌≤◌, ◌<◌, ◌-◌, ◌^◌, true, List, IsTrue, OnSome, length, map, option_copied};
ghost use Rattle.load_model.specs.Modules.{Library};
ghost use Rattle.session_model.specs.Merging.{Item, entry, line, is_command_of};
ghost use Rattle.check_model.specs.Checks.{Judge, CommandIsNext};
ghost use Rattle.check_core.specs.NextCommands.{AreDone, IsForNext, next_command, done_of, with_one_more};
ghost use Rattle.check_core.specs.NextLaws.{command_count};

use crate::commands::asks_for;
use crate::counts::is_fault;
use crate::sameness::Same;
use load_model::{Command, Entry};
use session_model::{Line, Script};

// The command that a process has to do next, where it has done so many.
#[tactic(auto, using(crate::proofs::NextCommands::next_at))]
pub(crate) fn next_command<'a>(
    scripts: &'a [Script],
    done: &[usize],
    pid: u32,
) -> Option<&'a Command>
    requires { length done.now ≡ length scripts.now }
    ensures command { option_copied result ≡ next_command scripts.now done.now pid }
    ensures few { OnSome result (done_of done.now pid < 2 ^ 64 - 1) }
{
    if pid == 0 {
        return None;
    }
    let place = pid as usize - 1;
    if place >= scripts.len() {
        return None;
    }
    let commands = scripts[place].commands.as_slice();
    if done[place] >= commands.len() {
        return None;
    }
    commands.get(done[place])
}

// Whether an entry is a fault, or for the command that is next by count.
fn is_next_entry(lib: &mod_graph::Library, scripts: &[Script], done: &[usize], told: &Entry) -> bool
    requires { length done.now ≡ length scripts.now }
    ensures { IsTrue result ↔ (is_command_of told.now.pid (entry told.now) ≡ true
        → IsForNext lib.now (next_command scripts.now done.now told.now.pid) (entry told.now)) }
{
    if is_fault(&told.deed) {
        return true;
    }
    match next_command(scripts, done, told.pid) {
        Some(command) => asks_for(lib, command, &told.deed),
        None => false,
    }
}

/// Whether an entry is a fault, or for the next command of its process's script.
pub fn entry_is_next(
    lib: &mod_graph::Library,
    scripts: &[Script],
    done: &[usize],
    told: &Entry,
) -> bool
    requires { length done.now ≡ length scripts.now }
    ensures { (j : Judge) (before : List Item) → j.lib ≡ lib.now → j.scripts ≡ scripts.now → AreDone j before done.now
        → (IsTrue result ↔ CommandIsNext j before (entry told.now)) }
{
    is_next_entry(lib, scripts, done, told)
}

// Whether a line of a process has the command that is next by count.
fn is_next_line(scripts: &[Script], done: &[usize], pid: u32, told: &Line) -> bool
    requires { length done.now ≡ length scripts.now }
    ensures { (lib : Library) → (IsTrue result ↔ IsForNext lib (next_command scripts.now done.now pid) (line pid told.now)) }
{
    match next_command(scripts, done, pid) {
        Some(command) => told.command.is_same(command),
        None => false,
    }
}

/// Whether a line of a process is for the next command of its script.
pub fn line_is_next(scripts: &[Script], done: &[usize], pid: u32, told: &Line) -> bool
    requires { length done.now ≡ length scripts.now }
    ensures { (j : Judge) (before : List Item) → j.scripts ≡ scripts.now → AreDone j before done.now
        → (IsTrue result ↔ CommandIsNext j before (line pid told.now)) }
{
    is_next_line(scripts, done, pid, told)
}

/// Counts one command more of a process.
#[tactic(auto, using(crate::proofs::NextCommands::one_more_at, crate::proofs::NextCommands::done_at))]
pub fn count_command(done: &mut [usize], pid: u32)
    requires process { (1 ≤ pid) × (pid ≤ length done.old) }
    requires few { done_of done.old pid < 2 ^ 64 - 1 }
    ensures { done.new ≡ with_one_more done.old pid }
{
    done[pid as usize - 1] += 1;
}

/// Whether each script has as many commands as were done.
pub fn all_done(scripts: &[Script], done: &[usize]) -> bool
    requires { length done.now ≡ length scripts.now }
    ensures { IsTrue result ↔ (done.now ≡ map command_count scripts.now) }
{
    for (place, script) in scripts.iter().enumerate() {
        if done[place] != script.commands.as_slice().len() {
            return false;
        }
    }
    true
}
