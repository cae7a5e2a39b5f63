//! The transcript of a run.

ghost use Rattle.std.specs.Prelude.{◌≡◌, ◌++◌, ◌+◌, ◌<◌, ◌^◌, length, filter, OnOk, IfOk};
ghost use Rattle.session_model.specs.Merging.{is_fault, numbers_of};
ghost use Rattle.session_model.specs.Text.{line_of};
ghost use Rattle.session_model.specs.Transcript.{entry_text, line_text, summary_words, Transcript};
ghost use Rattle.session_text.specs.Parts.{entries_text};

use crate::entries::push_entry;
use crate::lines::{push_answer, push_scripts};
use line_words::{Word, push_line};
use load_model::{Command, Deed, Entry, Reply};
use lx_types::{NoMemory, Seq};
use mod_graph::Library;
use session_model::ScriptLines;
use std::alloc::{AllocError, Global};

/// A text, as its bytes.
pub type Text = Seq<u8>;

/// Entries of a history, after so many.
pub(crate) fn push_entries(
    out: &mut Vec<u8>,
    lib: &Library,
    before: u64,
    history: &[Entry],
    steady: &[ScriptLines],
) -> Result<(), AllocError>
    requires fits { before + length history.now < 2 ^ 64 }
    ensures { OnOk result (out.new.items ≡ out.old.items ++ entries_text lib.now steady.now before history.now) }
{
    let mut number = before;
    for entry in history {
        number += 1;
        push_entry(out, lib, steady, number, entry)?;
    }
    Ok(())
}

fn is_fault(deed: &Deed) -> bool
    ensures { result ≡ is_fault deed.now }
{
    matches!(deed, Deed::Fault { .. })
}

// How many entries are faults.
fn fault_count(history: &[Entry]) -> usize
    ensures { result ≡ length (filter (λ x. is_fault x.deed) history.now) }
{
    let mut count = 0;
    for entry in history {
        if is_fault(&entry.deed) {
            count += 1;
        }
    }
    count
}

/// The last line of a transcript.
pub(crate) fn push_summary(
    out: &mut Vec<u8>,
    history: &[Entry],
    steady: &[ScriptLines],
) -> Result<(), AllocError>
    ensures { OnOk result (out.new.items ≡ out.old.items ++ line_of (summary_words history.now steady.now)) }
{
    let faults = Word::Count(fault_count(history) as u64);
    push_line(
        out,
        &[
            Word::Text(b"summary"),
            Word::Text(b"processes"),
            Word::Count(steady.len() as u64),
            Word::Text(b"entries"),
            Word::Count(history.len() as u64),
            Word::Text(b"faults"),
            faults,
        ],
    )
}

/// The transcript of a history and of the steady lines of its processes, in time linear in the text. Modules are
/// those of `lib`, and process `k` of the history is that of the `k`-th script.
pub fn print(
    alloc: Global,
    lib: &Library,
    history: &[Entry],
    steady: &[ScriptLines],
) -> Result<Text, NoMemory>
    ensures { IfOk result (λ text. text ≡ Transcript lib.now history.now steady.now) }
{
    let mut out = Vec::new(alloc);
    push_line(&mut out, &[Word::Text(b"history")])?;
    push_entries(&mut out, lib, 0, history, steady)?;
    push_scripts(&mut out, steady)?;
    push_summary(&mut out, history, steady)?;
    Ok(Seq::from_vec(out))
}

/// The lines that a transcript has for one entry, by its number in the history. Modules are those of `lib`, and process `k` is that
/// of the `k`-th script.
pub fn print_entry(
    alloc: Global,
    lib: &Library,
    steady: &[ScriptLines],
    number: u64,
    entry: &Entry,
) -> Result<Text, NoMemory>
    ensures { IfOk result (λ text. text ≡ entry_text lib.now (numbers_of steady.now) (number, entry.now)) }
{
    let mut out = Vec::new(alloc);
    push_entry(&mut out, lib, steady, number, entry)?;
    Ok(Seq::from_vec(out))
}

/// The steady line that a transcript has for a command and its reply, where its process had made or was shown so many entries.
pub fn print_answer(
    alloc: Global,
    front: u64,
    command: &Command,
    reply: &Reply,
) -> Result<Text, NoMemory>
    ensures { IfOk result (λ text. text ≡ line_text (record { front = front; command = command.now; reply = reply.now })) }
{
    let mut out = Vec::new(alloc);
    push_answer(&mut out, front, command, reply)?;
    Ok(Seq::from_vec(out))
}
