//! The numbers of a transcript's last line, and the line of its first heading.

ghost use Rattle.std.specs.Prelude.{◌≡◌, ◌↔◌, ◌<◌, ◌^◌, IsTrue, length, filter};
ghost use Rattle.session_model.specs.Merging.{is_fault};
ghost use Rattle.check_model.specs.Told.{counts_of};
ghost use Rattle.check_model.specs.Places.{deed_height, after_entries};

use check_model::Counts;
use load_model::{Deed, Entry};
use session_model::ScriptLines;

// Whether a process made a page present.
pub(crate) fn is_fault(deed: &Deed) -> bool
    ensures { result ≡ is_fault deed.now }
{
    matches!(deed, Deed::Fault { .. })
}

// How many faults are among entries.
fn fault_count(history: &[Entry]) -> u64
    ensures { result ≡ length (filter (λ x. is_fault x.deed) history.now) }
{
    let mut count = 0;
    for entry in history {
        if is_fault(&entry.deed) {
            count += 1;
        }
    }
    count
}

/// Whether the numbers are those of a run: of its scripts, of its entries, and of the faults among these.
pub fn are_counts(counts: Counts, history: &[Entry], steady: &[ScriptLines]) -> bool
    ensures { IsTrue result ↔ (counts ≡ counts_of (record { history = history.now; steady = steady.now })) }
{
    counts.processes == steady.len() as u64
        && counts.entries == history.len() as u64
        && counts.faults == fault_count(history)
}

/// How many lines of a transcript a deed takes.
pub fn height(deed: &Deed) -> u64
    requires { deed_height deed.now < 2 ^ 64 }
    ensures { result ≡ deed_height deed.now }
{
    match deed {
        Deed::Enter { fresh, calls, .. } => {
            1 + fresh.as_slice().len() as u64 + calls.as_slice().len() as u64
        }
        Deed::Failed {
            fresh,
            calls,
            gone,
            ..
        } => {
            1 + fresh.as_slice().len() as u64
                + calls.as_slice().len() as u64
                + gone.as_slice().len() as u64
        }
        Deed::Free { calls, gone, .. } | Deed::Exit { calls, gone } => {
            1 + calls.as_slice().len() as u64 + gone.as_slice().len() as u64
        }
        Deed::Full { .. }
        | Deed::Fault { .. }
        | Deed::Write { .. }
        | Deed::Debug { .. }
        | Deed::Shared { .. } => 1,
    }
}

/// The line after entries of which the first begins at line `first`.
pub fn line_after(first: u64, history: &[Entry]) -> u64
    requires { after_entries first history.now < 2 ^ 64 }
    ensures { result ≡ after_entries first history.now }
{
    let mut line = first;
    for entry in history {
        line += height(&entry.deed);
    }
    line
}
