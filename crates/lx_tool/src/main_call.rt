//! The top call of the program: sessions, checks of transcripts, and all other commands.
ghost use Rattle.std.specs.Prelude.{◌≡◌, None, map, option_map, string_bytes};
ghost use Rattle.answer_model.specs.RunAnswer.{run_of};
ghost use Rattle.answer_model.specs.CheckAnswer.{check_of};
ghost use Rattle.answer_model.specs.RunEnds.{EndsUnrun, MainEnds};
ghost use Rattle.run_core.specs.Sessions.{run_in};
ghost use Rattle.lx_tool.specs.Headline.{Headline};
ghost use Rattle.lx_tool.specs.Running.{Puts, PutsEnd, RanByLoads, ShowsRun, Tells};

use crate::check::check;
use crate::output::{put_said, put_text};
use crate::run::{SessionEnd, run};
use crate::tool::{Built, lx_build};
use answer_model::{DONE, NO_MEMORY};
use command_line::{check_named, session_named};
use file_commands::Told;
use lx_ports::{Files, Gate, Sink};
use lx_types::NoMemory;
use mod_graph::Library;
use refusal_text::{LinkFiles, Refused};
use run_core::Ran;
use std::alloc::Global;
use std::sync::{Arc, Wait};
use std::thread::Threads;

/// How a call of the program ended: with its status; with what was refused, where something was: then the line that was put is
/// its text; with the link that a map is of; and with what ran, where a session ran: its transcript, the history of its loader,
/// which was closed, and the steady lines of its scripts, and the library over which it ran.
#[derive(Drop)]
pub struct Ended {
    pub status: u8,
    pub refused: Option<Refused>,
    pub mapped: Option<LinkFiles>,
    pub ran: Option<Ran>,
    pub library: Option<Arc<Library>>,
}

// Puts what is said of a session, or its transcript.
fn put_end<S: Sink>(out: &mut S, end: SessionEnd) -> Ended
    ensures puts { PutsEnd end (S.state out.old) (S.state out.new) result }
    ensures tells { Tells result.refused (S.state out.old) (S.state out.new) result.status }
{
    match end {
        SessionEnd::Refused(told) => {
            let status = put_said(out, &told.said);
            Ended {
                status,
                refused: told.refused,
                mapped: None,
                ran: None,
                library: None,
            }
        }
        SessionEnd::Ran { ran, library } => {
            let status = put_text(out, DONE, ran.text.as_slice());
            Ended {
                status,
                refused: None,
                mapped: None,
                ran: Some(ran),
                library: Some(library),
            }
        }
    }
}

// Puts what is said of a transcript.
fn put_check<S: Sink>(out: &mut S, told: Told) -> Ended
    ensures puts { Puts told.said (S.state out.old) (S.state out.new) result.status }
    ensures tells { Tells result.refused (S.state out.old) (S.state out.new) result.status }
    ensures ran { result.ran ≡ None }
{
    let status = put_said(out, &told.said);
    Ended {
        status,
        refused: told.refused,
        mapped: None,
        ran: None,
        library: None,
    }
}

// Does what words ask for that are no session.
fn without_run<R: Threads + Wait + Sync, F: Files, S: Sink>(
    rt: &R,
    alloc: Global,
    words: &[String],
    files: &mut F,
    out: &mut S,
) -> Ended
    ensures ends { EndsUnrun (check_of (map string_bytes words.now)) (map string_bytes words.now) (F.state files.old) (F.state files.new)
        (S.state out.old) (S.state out.new) result.status }
    ensures ran { result.ran ≡ None }
    ensures tells { Tells result.refused (S.state out.old) (S.state out.new) result.status }
{
    let Some(named) = check_named(words) else {
        let Built {
            status,
            refused,
            mapped,
        } = lx_build(alloc, words, files, out);
        return Ended {
            status,
            refused,
            mapped,
            ran: None,
            library: None,
        };
    };
    match check(rt, alloc, files, named) {
        Ok(told) => put_check(out, told),
        Err(NoMemory) => Ended {
            status: NO_MEMORY,
            refused: None,
            mapped: None,
            ran: None,
            library: None,
        },
    }
}

/// Does what the words ask for, as the program does, and tells how that ended.
///
/// `run FILE` runs the session in FILE: it is loaded and read, its module lines are done in turn, the modules are gathered,
/// and its scripts run, each on a thread of its own where one can be made; the gate is asked before each command. The text is
/// the transcript of what happened. `check FILE TRANSCRIPT` reads the session and does its module lines in the same way, and then
/// judges TRANSCRIPT, a text by whomever it was written: the text is that it is the transcript of a run of the session, with the
/// numbers of its last line, or the first line that is wrong, and the kind of what is. All other words are those of `lx_build`.
///
/// The statuses of a session: 0, the whole transcript was put; 1, a file is absent, too long or has a fault, a module does not
/// link, or the modules are no library; 3, reading failed; 4, putting failed after some of the text; 8, there was no memory,
/// and nothing was put. With 1 and 3 one line was put. Nothing is saved. With 0 there is what ran, and with 4 where the
/// scripts ran before putting failed. Of a check they are the same, with 1 also where the text is the transcript of no run, and
/// nothing ran. A call that waits for another thread may not return.
pub fn lx_main<R: Threads + Wait + Sync, F: Files, S: Sink, G: Gate>(
    rt: &R,
    alloc: Global,
    words: &[String],
    files: &mut F,
    out: &mut S,
    gate: &G,
) -> Ended
    ensures ends { MainEnds (map string_bytes words.now) (F.state files.old) (F.state files.new)
        (S.state out.old) (S.state out.new) result.status (option_map run_in result.ran) }
    ensures headline { Headline (run_of (map string_bytes words.now)) (F.state files.old).contents result.ran }
    ensures loads { RanByLoads (run_of (map string_bytes words.now)) (F.state files.old) (F.state files.new) result.ran }
    ensures shows { ShowsRun (run_of (map string_bytes words.now)) (S.state out.old) (S.state out.new) result }
    ensures tells { Tells result.refused (S.state out.old) (S.state out.new) result.status }
{
    let Some(file) = session_named(words) else {
        return without_run(rt, alloc, words, files, out);
    };
    match run(rt, alloc, files, file, gate) {
        Ok(end) => put_end(out, end),
        Err(NoMemory) => Ended {
            status: NO_MEMORY,
            refused: None,
            mapped: None,
            ran: None,
            library: None,
        },
    }
}
