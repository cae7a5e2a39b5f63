//! What is read of a transcript while lines come.

ghost use Rattle.std.specs.Prelude.{◌≡◌, ◌∷◌, ◌++◌, [], IfOk};
ghost use Rattle.transcript_whole.specs.Drafts.{nothing_read, history_in, steady_in, with_lines, with_below, with_steady, with_line};

use check_model::Counts;
use load_model::{Calls, Deed, Entry, History, Leavers, Newcomers};
use lx_types::{NoMemory, Seq};
use session_model::{Line, ScriptLines};
use std::alloc::Global;
use transcript_lines::TranscriptLine;

/// What the lines so far tell. Entries have the numbers of their scripts. The lists below the last entry, and the steady lines
/// of the last script, are kept apart until the next one comes.
#[derive(Drop)]
pub(crate) struct Draft {
    pub history: History,
    pub fresh: Newcomers,
    pub calls: Calls,
    pub gone: Leavers,
    pub steady: Seq<ScriptLines>,
    pub lines: Seq<Line>,
    pub counts: Counts,
}

// What was done, with the lines below it.
fn with_lines(deed: Deed, fresh: Newcomers, calls: Calls, gone: Leavers) -> Deed
    ensures { result ≡ with_lines deed fresh calls gone }
{
    match deed {
        Deed::Enter { how, module, .. } => Deed::Enter {
            how,
            module,
            fresh,
            calls,
        },
        Deed::Failed {
            how,
            module,
            by,
            ..
        } => Deed::Failed {
            how,
            module,
            by,
            fresh,
            calls,
            gone,
        },
        Deed::Free { module, .. } => Deed::Free {
            module,
            calls,
            gone,
        },
        Deed::Exit { .. } => Deed::Exit { calls, gone },
        other => other,
    }
}

/// The entries, of which the last has these lines below it.
pub(crate) fn with_below(
    history: History,
    fresh: Newcomers,
    calls: Calls,
    gone: Leavers,
) -> Result<Vec<Entry>, NoMemory>
    ensures { IfOk result (λ entries. entries.items ≡ with_below history fresh calls gone) }
{
    let mut entries = history.into_vec();
    let Some(last) = entries.pop() else {
        return Ok(entries);
    };
    let deed = with_lines(last.deed, fresh, calls, gone);
    entries.push(Entry {
        pid: last.pid,
        deed,
    })?;
    Ok(entries)
}

/// The scripts, of which the last has these steady lines.
pub(crate) fn with_steady(
    steady: Seq<ScriptLines>,
    lines: Seq<Line>,
) -> Result<Seq<ScriptLines>, NoMemory>
    ensures { IfOk result (λ scripts. scripts ≡ with_steady steady lines) }
{
    let mut scripts = steady.into_vec();
    let Some(last) = scripts.pop() else {
        return Ok(Seq::from_vec(scripts));
    };
    scripts.push(ScriptLines {
        pid: last.pid,
        lines,
    })?;
    Ok(Seq::from_vec(scripts))
}

impl Draft {
    /// Nothing.
    pub fn new(alloc: Global) -> Draft
        ensures { result ≡ nothing_read }
    {
        Draft {
            history: Seq::new(alloc),
            fresh: Seq::new(alloc),
            calls: Seq::new(alloc),
            gone: Seq::new(alloc),
            steady: Seq::new(alloc),
            lines: Seq::new(alloc),
            counts: Counts {
                processes: 0,
                entries: 0,
                faults: 0,
            },
        }
    }

    // The last entry is closed, and the next one is open.
    fn with_entry(self, alloc: Global, pid: u32, deed: Deed) -> Result<Draft, NoMemory>
        ensures { IfOk result (λ draft. draft ≡ record self { history = history_in self ++ record { pid = pid; deed = deed } ∷ []; fresh = []; calls = []; gone = [] }) }
    {
        let mut entries = with_below(self.history, self.fresh, self.calls, self.gone)?;
        entries.push(Entry { pid, deed })?;
        Ok(Draft {
            history: Seq::from_vec(entries),
            fresh: Seq::new(alloc),
            calls: Seq::new(alloc),
            gone: Seq::new(alloc),
            steady: self.steady,
            lines: self.lines,
            counts: self.counts,
        })
    }

    // The last script is closed, and the next one is open.
    fn with_process(self, alloc: Global, pid: u32) -> Result<Draft, NoMemory>
        ensures { IfOk result (λ draft. draft ≡ record self { steady = steady_in self ++ record { pid = pid; lines = [] } ∷ []; lines = [] }) }
    {
        let mut steady = with_steady(self.steady, self.lines)?;
        steady.push(ScriptLines {
            pid,
            lines: Seq::new(alloc),
        })?;
        Ok(Draft {
            history: self.history,
            fresh: self.fresh,
            calls: self.calls,
            gone: self.gone,
            steady,
            lines: Seq::new(alloc),
            counts: self.counts,
        })
    }

    /// The draft with a line more.
    pub fn with_line(self, alloc: Global, line: TranscriptLine) -> Result<Draft, NoMemory>
        ensures { IfOk result (λ draft. draft ≡ with_line self line) }
    {
        let mut draft = self;
        match line {
            TranscriptLine::Entry { process, deed, .. } => {
                return draft.with_entry(alloc, process, deed);
            }
            TranscriptLine::Process(pid) => return draft.with_process(alloc, pid),
            TranscriptLine::New(fresh) => draft.fresh.push(fresh)?,
            TranscriptLine::Call(call) => draft.calls.push(call)?,
            TranscriptLine::Gone(gone) => draft.gone.push(gone)?,
            TranscriptLine::Steady(line) => draft.lines.push(line)?,
            TranscriptLine::Summary(counts) => draft.counts = counts,
            TranscriptLine::History => {}
        }
        Ok(draft)
    }
}
