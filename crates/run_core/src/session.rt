//! The run of a whole session.

ghost use Rattle.std.specs.Prelude.{◌≡◌, ◌<◌, ◌≤◌, [], ℕ, List, IfOk, length, map, slice_index_or, zip};
ghost use Rattle.std.specs.Arc.{arc_value};
ghost use Rattle.std.specs.List.{All, list_any};
ghost use Rattle.lx_types.specs.declared.limits.TheConstants.{MAX_PROCESSES};
ghost use Rattle.session_model.specs.Bounds.{IsSession};
ghost use Rattle.session_model.specs.FailingPairs.{failing_pairs};
ghost use Rattle.session_model.specs.Runs.{run_text};
ghost use Rattle.load_model.specs.State.{Failing};
ghost use Rattle.session_model.specs.declared.sessions.Script.{Script};
ghost use Rattle.proc_core.specs.Closing.{AreMade};
ghost use Rattle.run_core.specs.Sessions.{HaveRun, IsRanOf, run_in};
ghost use Rattle.run_core.specs.Tasks.{IsReady, IsRunOut, lines_of, proc_of, task_with};
ghost use Rattle.run_core.specs.declared.tasks.Task.{Task};

use crate::tasks::{Task, run_script};
use lx_ports::Gate;
use lx_types::{NoMemory, Seq};
use mod_graph::Library;
use proc_core::{Closed, Loader, Proc};
use session_model::{Script, ScriptLines, Session};
use session_text::{Text, print_by_threads};
use std::alloc::Global;
use std::sync::{Arc, Wait};
use std::thread;
use std::thread::Threads;

/// What the run of a session gives: the transcript, and what it is the transcript of, which is the history of the loader, as it
/// was closed, and the steady lines of each script in the order of the scripts.
#[derive(Drop)]
pub struct Ran {
    pub text: Text,
    pub closed: Closed,
    pub steady: Seq<ScriptLines>,
}

// The task of each script, with its process.
fn tasks_of(alloc: Global, procs: Vec<Proc>, scripts: Vec<Script>) -> Result<Vec<Task>, NoMemory>
    ensures { IfOk result (λ tasks. tasks.items ≡ map task_with (zip procs.items scripts.items)) }
{
    Ok(
        procs
            .into_iter()
            .zip(scripts)
            .map(|(proc, script)| Task {
                number: script.pid,
                proc,
                commands: script.commands,
                lines: Seq::new(alloc),
                starved: false,
            })
            .collect(alloc)?,
    )
}

// Carries out each script on a thread of its own, where one can be made.
fn run_all<R: Threads + Wait + Sync, G: Gate>(
    rt: &R,
    alloc: Global,
    loader: &Loader,
    gate: &G,
    tasks: &mut [Task],
)
    requires some { 0 < length tasks.old }
    requires ready { All (IsReady loader.now) tasks.old }
    ensures { (k : ℕ) (d : Task) → k < length tasks.old → IsRunOut loader.now (slice_index_or tasks.old k d) (slice_index_or tasks.new k d) }
{
    let threads = tasks.len();
    let each = |_: usize, task: &mut Task|
        requires { IsReady loader.now task.now }
        ensures { IsRunOut loader.entry.now task.entry.now task.exit.now }
    {
        run_script(rt, alloc, loader, gate, task);
    };
    thread::for_each_mut(rt, tasks, threads, &each);
}

// The same of a list of tasks.
fn run_tasks<R: Threads + Wait + Sync, G: Gate>(
    rt: &R,
    alloc: Global,
    loader: &Loader,
    gate: &G,
    mut tasks: Vec<Task>,
) -> Vec<Task>
    requires some { 0 < length tasks.items }
    requires ready { All (IsReady loader.now) tasks.items }
    ensures count { length result.items ≡ length tasks.items }
    ensures out { (k : ℕ) (d : Task) → k < length tasks.items → IsRunOut loader.now (slice_index_or tasks.items k d) (slice_index_or result.items k d) }
{
    run_all(rt, alloc, loader, gate, tasks.as_mut_slice());
    tasks
}

// One of them ended for want of memory.
fn any_starved(tasks: &[Task]) -> bool
    ensures { result ≡ list_any (λ task. task.starved) tasks.now }
{
    tasks.iter().any(|task| task.starved)
}

// The processes of the tasks, and the lines of each script.
fn split_tasks(alloc: Global, tasks: Vec<Task>) -> Result<(Vec<Proc>, Vec<ScriptLines>), NoMemory>
    ensures procs { IfOk result (λ parts. parts.0.items ≡ map proc_of tasks.items) }
    ensures steady { IfOk result (λ parts. parts.1.items ≡ map lines_of tasks.items) }
{
    let mut procs = Vec::new(alloc);
    let mut steady = Vec::new(alloc);
    for task in tasks {
        procs.push(task.proc)?;
        steady.push(ScriptLines {
            pid: task.number,
            lines: task.lines,
        })?;
    }
    Ok((procs, steady))
}

// What is told of a loader that was closed, and of the lines of its scripts.
fn told<R: Threads + Sync>(
    rt: &R,
    alloc: Global,
    lib: &Library,
    closed: Closed,
    steady: Vec<ScriptLines>,
) -> Result<Ran, NoMemory>
    ensures closed { IfOk result (λ ran. ran.closed ≡ closed) }
    ensures steady { IfOk result (λ ran. ran.steady ≡ steady.items) }
    ensures text { IfOk result (λ ran. ran.text ≡ run_text lib.now (run_in ran)) }
{
    let text = print_by_threads(rt, alloc, lib, closed.history(), &steady)?;
    Ok(Ran {
        text,
        closed,
        steady: Seq::from_vec(steady),
    })
}

// Closes the loader over its processes, and tells what happened.
fn finish<R: Threads + Sync>(
    rt: &R,
    alloc: Global,
    lib: &Library,
    loader: Loader,
    tasks: Vec<Task>,
) -> Result<Ran, NoMemory>
    requires run { (failing : Failing) × (scripts : List Script) × HaveRun loader lib.now failing scripts tasks.items }
    ensures { IfOk result (λ ran. (failing : Failing) (scripts : List Script)
        → HaveRun loader lib.entry.now failing scripts tasks.items → IsRanOf lib.entry.now failing scripts ran) }
{
    script_laws::scripts_are_run();
    if any_starved(&tasks) {
        return Err(NoMemory);
    }
    let (procs, steady) = split_tasks(alloc, tasks)?;
    let closed = loader.close(procs);
    told(rt, alloc, lib, closed, steady)
}

// A new loader of a library, with its processes.
fn new_loader(
    alloc: Global,
    lib: &Arc<Library>,
    count: usize,
    failing: Vec<(u32, u32)>,
) -> Result<(Loader, Vec<Proc>), NoMemory>
    requires { (1 ≤ count) × (count ≤ MAX_PROCESSES) }
    ensures { IfOk result (λ r. AreMade r.0 (record { library = arc_value lib.now; failing = failing.items }) count r.1.items) }
{
    Loader::make_with(alloc, lib.clone()?, count as u32, failing)
}

// The run of no scripts: one process, that does nothing.
fn run_nothing<R: Threads + Sync>(
    rt: &R,
    alloc: Global,
    lib: &Arc<Library>,
    failing: Vec<(u32, u32)>,
) -> Result<Ran, NoMemory>
    ensures { IfOk result (λ ran. IsRanOf (arc_value lib.entry.now) failing.items [] ran) }
{
    script_laws::scripts_are_run();
    let (loader, procs) = new_loader(alloc, lib, 1, failing)?;
    let closed = loader.close(procs);
    told(rt, alloc, lib, closed, Vec::new(alloc))
}

// The pairs of a process and a module whose initialisation fails, as a session's lines say.
fn failing_in(
    alloc: Global,
    lib: &Arc<Library>,
    session: &Session,
) -> Result<Vec<(u32, u32)>, NoMemory>
    requires { IsSession session.now }
    ensures { IfOk result (λ found. found.items ≡ failing_pairs (arc_value lib.now) session.now) }
{
    failing_inits::failing_pairs(alloc, lib, session)
}

/// Runs the scripts of a session over a library: each script on a thread of its own, where one can be made. The initialisations
/// fail that the session's lines say. Before each command the gate is asked with the script's number, which need not be its
/// process's, and with the command's place in the script, from 1. A long transcript is printed by several threads.
///
/// Where a script finds no memory, the others run to their ends, and then the answer is `NoMemory`.
pub fn run_session<R: Threads + Wait + Sync, G: Gate>(
    rt: &R,
    alloc: Global,
    session: Session,
    lib: Arc<Library>,
    gate: &G,
) -> Result<Ran, NoMemory>
    requires { IsSession session }
    ensures { IfOk result (λ ran. IsRanOf (arc_value lib) (failing_pairs (arc_value lib) session) session.scripts ran) }
{
    script_laws::progress_begins();
    let failing = failing_in(alloc, &lib, &session)?;
    let scripts = session.scripts.into_vec();
    if scripts.is_empty() {
        return run_nothing(rt, alloc, &lib, failing);
    }
    let (loader, procs) = new_loader(alloc, &lib, scripts.len(), failing)?;
    let tasks = tasks_of(alloc, procs, scripts)?;
    let tasks = run_tasks(rt, alloc, &loader, gate, tasks);
    finish(rt, alloc, &lib, loader, tasks)
}
