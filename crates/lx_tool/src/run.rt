//! The command `run`: the scripts of a session, each on a thread of its own.
ghost use Rattle.std.specs.Arc.{arc_value};
ghost use Rattle.std.specs.Prelude.{ℕ, IfOk, List};
ghost use Rattle.lx_ports.specs.Calls.{Call};
ghost use Rattle.session_model.specs.Bounds.{IsSession};
ghost use Rattle.session_model.specs.FailingPairs.{failing_pairs};
ghost use Rattle.session_files.specs.SessionFiles.{AreSessionFiles};
ghost use Rattle.run_core.specs.Sessions.{IsRanOf};
ghost use Rattle.lx_tool.specs.Running.{DoesRun, SaysEnd};

use file_commands::{Told, in_full, ungathered};
use lx_ports::{Files, Gate};
use lx_types::NoMemory;
use mod_graph::Library;
use run_core::{Ran, run_session};
use run_laws::{built_modules_are_of_their_links, runs_by_links};
use session_files::{SessionFiles, read_session_files};
use session_model::Session;
use std::alloc::Global;
use std::sync::{Arc, Wait};
use std::thread::Threads;

/// What a session comes to: what is said of one whose scripts do not run, or what ran, and over which modules.
#[derive(Drop)]
pub enum SessionEnd {
    Refused(Told),
    Ran { ran: Ran, library: Arc<Library> },
}

// Runs the scripts over a library, which stays.
fn run_over<R: Threads + Wait + Sync, G: Gate>(
    rt: &R,
    alloc: Global,
    session: Session,
    lib: &Arc<Library>,
    gate: &G,
) -> Result<Ran, NoMemory>
    requires { IsSession session }
    ensures { IfOk result (λ ran. IsRanOf (arc_value lib.now) (failing_pairs (arc_value lib.now) session) session.scripts ran) }
{
    run_session(rt, alloc, session, lib.clone()?, gate)
}

// Gathers the modules, and runs the scripts over them.
fn run_files<R: Threads + Wait + Sync, G: Gate>(
    rt: &R,
    alloc: Global,
    read: SessionFiles,
    gate: &G,
) -> Result<SessionEnd, NoMemory>
    requires { (file : List ℕ) × (calls : List Call) × AreSessionFiles file calls read }
    ensures { (file : List ℕ) (calls : List Call) → AreSessionFiles file calls read → IfOk result (SaysEnd file calls) }
{
    runs_by_links();
    built_modules_are_of_their_links();
    let SessionFiles { session, modules } = read;
    match Library::gather(alloc, modules) {
        Ok(lib) => {
            let library = Arc::new(alloc, lib)?;
            let ran = run_over(rt, alloc, session, &library, gate)?;
            Ok(SessionEnd::Ran { ran, library })
        }
        Err(refused) => Ok(SessionEnd::Refused(ungathered(alloc, "session", refused.why)?)),
    }
}

/// Loads and reads the session in a file, does its module lines in turn, gathers its modules and runs its scripts, each on a
/// thread of its own where one can be made. The gate is asked before each command.
pub fn run<R: Threads + Wait + Sync, F: Files, G: Gate>(
    rt: &R,
    alloc: Global,
    files: &mut F,
    file: &str,
    gate: &G,
) -> Result<SessionEnd, NoMemory>
    ensures { DoesRun file.now (F.state files.old) (F.state files.new) result }
{
    match read_session_files(rt, alloc, files, file) {
        Ok(read) => run_files(rt, alloc, read, gate),
        Err(why) => Ok(SessionEnd::Refused(in_full(alloc, why)?)),
    }
}
