//! The command `check`: a text, judged as the transcript of a run of a session. No script runs.
ghost use Rattle.std.specs.Arc.{arc_value};
ghost use Rattle.std.specs.Prelude.{◌≡◌, ℕ, IfOk, List};
ghost use Rattle.answer_model.specs.CheckAnswer.{ok_line};
ghost use Rattle.check_session.specs.Checked.{judge_of};
ghost use Rattle.command_line.specs.Commands.{checked};
ghost use Rattle.lx_ports.specs.Calls.{Call};
ghost use Rattle.session_files.specs.SessionFiles.{AreSessionFiles};
ghost use Rattle.session_model.specs.Bounds.{IsSession};
ghost use Rattle.lx_tool.specs.Checking.{DoesCheck, JudgesAs, JudgesFile, JudgesRest};

use check_laws::checks_by_links;
use check_model::Counts;
use check_session::{Checked, CheckedText, check_transcript};
use command_line::CheckWords;
use file_commands::{Told, in_full, refused_as, ungathered};
use lx_ports::Files;
use lx_types::{Bytes, NoMemory, Seq};
use mod_graph::Library;
use refusal_text::{Cause, FileFault};
use session_files::{SessionFiles, read_session_files};
use session_model::Session;
use std::alloc::{AllocError, Global};
use std::sync::{Arc, Wait};
use std::thread::Threads;
use tool_read::read_bytes;

/// A transcript by the name of its file, and by what it is judged: a session, and the library of its modules.
#[derive(Clone, Copy)]
struct Judging<'a> {
    name: &'a str,
    session: &'a Session,
    library: &'a Arc<Library>,
}

// `ok processes N entries E faults F`
fn ok_line(alloc: Global, counts: Counts) -> Result<Bytes, AllocError>
    ensures { IfOk result (λ line. line ≡ ok_line counts) }
{
    let processes = counts.processes;
    let entries = counts.entries;
    let faults = counts.faults;
    let line = format!(in alloc; "ok processes {processes} entries {entries} faults {faults}\n")?;
    Ok(Seq::from_vec(line.into_bytes()))
}

// What is said of a transcript of these bytes.
fn judged<R: Wait>(rt: &R, alloc: Global, by: Judging<'_>, bytes: Vec<u8>) -> Result<Told, NoMemory>
    requires { IsSession by.session.now }
    ensures { IfOk result (λ told. JudgesAs (judge_of (arc_value by.entry.library.now) by.entry.session.now) by.entry.name.now bytes.items told.said) }
{
    let CheckedText { checked, expected } = check_transcript(
        rt, alloc, by.library, by.session, &bytes,
    )?;
    match checked {
        Checked::Accepted(counts) => Ok(Told::done(ok_line(alloc, counts)?)),
        Checked::Refused(fault) => {
            let fault = FileFault::Transcript(fault, expected);
            refused_as(alloc, by.name, Cause::Faulty { fault, bytes })
        }
    }
}

// Loads a transcript, and judges it.
fn judged_file<R: Wait, F: Files>(
    rt: &R,
    alloc: Global,
    files: &mut F,
    by: Judging<'_>,
) -> Result<Told, NoMemory>
    requires { IsSession by.session.now }
    ensures { JudgesFile (judge_of (arc_value by.entry.library.now) by.entry.session.now) by.entry.name.now (F.state files.old) (F.state files.new) result }
{
    match read_bytes(alloc, files, by.name) {
        Ok(bytes) => judged(rt, alloc, by, bytes),
        Err(why) => in_full(alloc, why),
    }
}

// Gathers the modules of a session, and judges the transcript over them.
fn check_files<R: Wait, F: Files>(
    rt: &R,
    alloc: Global,
    files: &mut F,
    read: SessionFiles,
    name: &str,
) -> Result<Told, NoMemory>
    requires { (file : List ℕ) × (calls : List Call) × AreSessionFiles file calls read }
    ensures { (file : List ℕ) (calls : List Call) → AreSessionFiles file calls read →
        JudgesRest file name.now calls (F.state files.old) (F.state files.new) result }
{
    checks_by_links();
    let SessionFiles { session, modules } = read;
    match Library::gather(alloc, modules) {
        Ok(lib) => {
            let library = Arc::new(alloc, lib)?;
            let by = Judging {
                name,
                session: &session,
                library: &library,
            };
            judged_file(rt, alloc, files, by)
        }
        Err(refused) => ungathered(alloc, "session", refused.why),
    }
}

/// Loads and reads the session in a file, does its module lines in turn and gathers its modules, as `run` does; then loads the
/// transcript, and says whether it is one of a run of the session, or what is wrong with it first, and at which line. Nothing is saved.
pub fn check<R: Threads + Wait + Sync, F: Files>(
    rt: &R,
    alloc: Global,
    files: &mut F,
    words: CheckWords<'_>,
) -> Result<Told, NoMemory>
    ensures { DoesCheck (checked words.entry) (F.state files.old) (F.state files.new) result }
{
    match read_session_files(rt, alloc, files, words.session) {
        Ok(read) => check_files(rt, alloc, files, read, words.transcript),
        Err(why) => in_full(alloc, why),
    }
}
