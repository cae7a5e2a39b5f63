//! A whole transcript.

ghost use Rattle.std.specs.Prelude.{◌≡◌, ◌≤◌, IfOk, length, map};
ghost use Rattle.lx_types.specs.Answers.{Answers};
ghost use Rattle.lx_types.specs.declared.limits.TheConstants.{MAX_PROCESSES};
ghost use Rattle.transcript_whole.specs.Drafts.{place_among, told_in, with_place};
ghost use Rattle.transcript_whole.specs.Readings.{IsTextFault};
ghost use Rattle.transcript_whole.specs.Whole.{told_of, CanBeJudged, Tells};

use crate::draft::{Draft, with_below, with_steady};
use crate::names::has_names;
use crate::reading::read_lines;
use check_model::{CheckFault, Counts};
use load_model::{Entry, History};
use lx_types::{Fail, NoMemory, Seq};
use mod_graph::Library;
use session_model::ScriptLines;
use std::alloc::Global;
use transcript_read::ModuleNames;

/// What a transcript tells: the entries of the history, the steady lines of each process, and the numbers of its last line.
#[derive(Drop)]
pub struct ReadRun {
    pub history: History,
    pub steady: Seq<ScriptLines>,
    pub counts: Counts,
}

// The place of a process among those that have headings, from 1.
fn place_among(steady: &[ScriptLines], pid: u32) -> u32
    requires { length steady.now ≤ MAX_PROCESSES }
    ensures { result ≡ place_among steady.now pid }
{
    steady.iter().take_while(|s| s.pid != pid).count() as u32 + 1
}

// The entries, with the places of their processes.
fn placed(history: Vec<Entry>, steady: &[ScriptLines]) -> Vec<Entry>
    requires { length steady.now ≤ MAX_PROCESSES }
    ensures { result.items ≡ map (with_place steady.now) history.items }
{
    let mut entries = history;
    for entry in entries.iter_mut() {
        entry.pid = place_among(steady, entry.pid);
    }
    entries
}

// What the lines of a whole transcript tell.
fn told(draft: Draft) -> Result<ReadRun, NoMemory>
    requires { length draft.steady ≤ MAX_PROCESSES }
    ensures { IfOk result (λ run. told_of run ≡ told_in draft) }
{
    let steady = with_steady(draft.steady, draft.lines)?;
    let entries = with_below(draft.history, draft.fresh, draft.calls, draft.gone)?;
    let history = Seq::from_vec(placed(entries, steady.as_slice()));
    Ok(ReadRun {
        history,
        steady,
        counts: draft.counts,
    })
}

/// Reads a transcript over a library, by whomever it was written, in time that grows as its bytes do. Bytes are read
/// exactly where they are the text of something that can be told over the library (`IsTold`); they tell one thing then.
/// Otherwise the fault is of the kind `Text`, at the first line with which no text begins; lines count from 1.
pub fn read_transcript(
    alloc: Global,
    bytes: &[u8],
    lib: &Library,
) -> Result<ReadRun, Fail<CheckFault>>
    ensures read { Answers result (λ run. Tells lib.now bytes.now (told_of run)) (IsTextFault lib.now bytes.now) }
    ensures judged { IfOk result (λ run. CanBeJudged (told_of run)) }
{
    has_names(lib);
    let names = ModuleNames::of(alloc, lib)?;
    let reading = read_lines(alloc, &names, bytes)?;
    Ok(told(reading.draft)?)
}
