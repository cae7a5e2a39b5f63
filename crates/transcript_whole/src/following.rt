//! Which line may stand next.

ghost use Rattle.std.specs.Prelude.{◌≡◌, ℕ, ◌+◌, ◌&&◌, not, List, length, nat_lt, option_map};
ghost use Rattle.std.specs.List.{list_any};
ghost use Rattle.load_model.specs.declared.deeds.Entry.{Entry};
ghost use Rattle.transcript_lines.specs.Following.{below_of, may_end, may_head, when, Scripts, End};
ghost use Rattle.transcript_whole.specs.Places.{below_seen, place_at, AreNamed, IsNext};

use load_model::{Deed, Entry};
use lx_types::MAX_PROCESSES;
use transcript_lines::TranscriptLine;

/// Which of the lines that are part of an entry may stand next.
#[derive(Clone, Copy)]
pub(crate) struct Below {
    pub news: bool,
    pub calls: bool,
    pub gone: bool,
}

/// Where a transcript has come to.
#[derive(Clone, Copy)]
pub(crate) enum At {
    /// Nothing of it is there.
    Start,
    /// Entries, and which lines may stand below the last one.
    Entries(Below),
    /// The steady lines of a process, by its number.
    Scripts(u32),
    /// Its end.
    End,
}

const NOTHING_BELOW: Below = Below {
    news: false,
    calls: false,
    gone: false,
};

// What may stand below the first line of an entry.
fn below_of(deed: &Deed) -> Below
    ensures { below_seen result ≡ below_of deed.now }
{
    match deed {
        Deed::Enter { .. } => Below {
            news: true,
            calls: true,
            gone: false,
        },
        Deed::Failed { .. } => Below {
            news: true,
            calls: true,
            gone: true,
        },
        Deed::Free { .. } | Deed::Exit { .. } => Below {
            news: false,
            calls: true,
            gone: true,
        },
        _ => NOTHING_BELOW,
    }
}

fn when(allowed: bool, there: At) -> Option<At>
    ensures { (n : ℕ) (named : List ℕ) → option_map (λ a. place_at a n named) result ≡ when allowed (place_at there n named) }
{
    if allowed { Some(there) } else { None }
}

// Whether no process that an entry names is left out between two numbers.
fn is_none_between(history: &[Entry], low: u32, high: u32) -> bool
    ensures { result ≡ not (list_any (λ x. nat_lt low x.pid && nat_lt x.pid high) history.now) }
{
    !history.iter().any(|x| low < x.pid && x.pid < high)
}

// The heading of a process, after that of another.
fn after_heading(history: &[Entry], last: u32, pid: u32) -> Option<At>
    ensures { (n : ℕ) (named : List ℕ) → AreNamed named history.now
        → option_map (λ a. place_at a n named) result ≡ when (may_head named last pid) (Scripts pid named) }
{
    when(
        last < pid && is_none_between(history, last, pid),
        At::Scripts(pid),
    )
}

// The last line, after the heading of a process.
fn after_summary(history: &[Entry], last: u32) -> Option<At>
    ensures { (n : ℕ) (named : List ℕ) → AreNamed named history.now
        → option_map (λ a. place_at a n named) result ≡ when (may_end named last) End }
{
    when(is_none_between(history, last, MAX_PROCESSES + 1), At::End)
}

// Where entries stand.
fn among_entries(below: Below, history: &[Entry], line: &TranscriptLine) -> Option<At>
    ensures { IsNext (at.Entries below) history.now line.now result }
{
    match line {
        TranscriptLine::Entry { number, deed, .. } => when(
            *number == history.len() as u64 + 1,
            At::Entries(below_of(deed)),
        ),
        TranscriptLine::New(_) => when(below.news, At::Entries(below)),
        TranscriptLine::Call(_) => when(
            below.calls,
            At::Entries(Below {
                news: false,
                ..below
            }),
        ),
        TranscriptLine::Gone(_) => when(
            below.gone,
            At::Entries(Below {
                news: false,
                calls: false,
                ..below
            }),
        ),
        TranscriptLine::Process(pid) => after_heading(history, 0, *pid),
        TranscriptLine::Summary(_) => after_summary(history, 0),
        _ => None,
    }
}

ghost use Rattle.transcript_whole.specs.declared.following.At.TheVariants as at;

// Where the steady lines of a process stand.
fn among_scripts(last: u32, history: &[Entry], line: &TranscriptLine) -> Option<At>
    ensures { IsNext (at.Scripts last) history.now line.now result }
{
    match line {
        TranscriptLine::Process(pid) => after_heading(history, last, *pid),
        TranscriptLine::Steady(_) => Some(At::Scripts(last)),
        TranscriptLine::Summary(_) => after_summary(history, last),
        _ => None,
    }
}

// The first line.
fn at_start(line: &TranscriptLine) -> Option<At>
    ensures { (history : List Entry) → IsNext at.Start history line.now result }
{
    match line {
        TranscriptLine::History => Some(At::Entries(NOTHING_BELOW)),
        _ => None,
    }
}

/// Where a transcript has come to with a line more, where the line may stand there after these entries.
pub(crate) fn follow(here: At, history: &[Entry], line: &TranscriptLine) -> Option<At>
    ensures { IsNext here history.now line.now result }
{
    match here {
        At::Start => at_start(line),
        At::Entries(below) => among_entries(below, history, line),
        At::Scripts(last) => among_scripts(last, history, line),
        At::End => None,
    }
}
