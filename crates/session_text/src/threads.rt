//! The transcript of a long run, which several threads print.

ghost use Rattle.std.specs.Prelude.{◌≡◌, ◌++◌, ◌+◌, ◌<◌, ◌^◌, ℕ, List, IfOk, OnOk, length};
ghost use Rattle.std.specs.List.{flat_map};
ghost use Rattle.std.specs.Thread.{IsSync};
ghost use Rattle.session_model.specs.Transcript.{script_text, Transcript};
ghost use Rattle.session_text.specs.Parts.{entries_text};

use crate::lines::push_scripts;
use crate::printing::{Text, push_entries, push_summary};
use line_words::{Word, push_line};
use load_model::Entry;
use lx_types::{NoMemory, Seq};
use mod_graph::Library;
use session_model::ScriptLines;
use session_read::halvings;
use std::alloc::{AllocError, Global};
use std::thread;
use std::thread::Threads;

/// So many entries or steady lines are printed sooner than threads begin.
const FEW_LINES: usize = 2_048;

/// A part of a text, where there was memory for it.
type Part = Result<Vec<u8>, AllocError>;

// Two parts, one after the other.
fn in_order(low: Part, high: Part) -> Part
    ensures { (a b : List ℕ) → IfOk low (λ text. text.items ≡ a) → IfOk high (λ text. text.items ≡ b) → IfOk result (λ text. text.items ≡ a ++ b) }
{
    let mut whole = low?;
    whole.append(&mut high?)?;
    Ok(whole)
}

/// Whose entries and steady lines are printed: modules are those of `lib`, and process `k` is that of the `k`-th script.
#[derive(Clone, Copy)]
struct Printer<'a> {
    alloc: Global,
    lib: &'a Library,
    steady: &'a [ScriptLines],
}

impl Printer<'_> {
    // The entries after so many.
    fn entries(self, before: u64, entries: &[Entry]) -> Part
        requires fits { before + length entries.now < 2 ^ 64 }
        ensures { IfOk result (λ text. text.items ≡ entries_text self.entry.lib.now self.entry.steady.now before entries.now) }
    {
        let mut text = Vec::new(self.alloc);
        push_entries(&mut text, self.lib, before, entries, self.steady)?;
        Ok(text)
    }

    // The same, halved so often, each half by a thread of its own where one can be made.
    fn entries_in_parts<R: Threads + Sync>(
        self,
        rt: &R,
        halvings: u32,
        before: u64,
        entries: &[Entry],
    ) -> Part
        requires fits { before + length entries.now < 2 ^ 64 }
        ensures { IfOk result (λ text. text.items ≡ entries_text self.entry.lib.now self.entry.steady.now before entries.now) }
    {
        if halvings == 0 {
            return self.entries(before, entries);
        }
        let left = halvings - 1;
        let (low, high) = entries.split_at(entries.len() / 2);
        let middle = before + low.len() as u64;
        let front = move || -> Part
            requires { IsSync R.row × (before + length low.now < 2 ^ 64) }
            ensures { IfOk result (λ text. text.items ≡ entries_text self.entry.lib.now self.entry.steady.now before low.entry.now) }
        { self.entries_in_parts(rt, left, before, low) };
        let back = move || -> Part
            requires { IsSync R.row × (middle + length high.now < 2 ^ 64) }
            ensures { IfOk result (λ text. text.items ≡ entries_text self.entry.lib.now self.entry.steady.now middle high.entry.now) }
        { self.entries_in_parts(rt, left, middle, high) };
        let (low, high) = thread::join(rt, front, back);
        in_order(low, high)
    }

    // The scripts, each with its steady lines.
    fn scripts(self, scripts: &[ScriptLines]) -> Part
        ensures { IfOk result (λ text. text.items ≡ flat_map script_text scripts.now) }
    {
        let mut text = Vec::new(self.alloc);
        push_scripts(&mut text, scripts)?;
        Ok(text)
    }

    // The same, halved so often, each half by a thread of its own where one can be made.
    fn scripts_in_parts<R: Threads + Sync>(
        self,
        rt: &R,
        halvings: u32,
        scripts: &[ScriptLines],
    ) -> Part
        ensures { IfOk result (λ text. text.items ≡ flat_map script_text scripts.now) }
    {
        if halvings == 0 {
            return self.scripts(scripts);
        }
        let left = halvings - 1;
        let (low, high) = scripts.split_at(scripts.len() / 2);
        let front = move || -> Part
            requires { IsSync R.row }
            ensures { IfOk result (λ text. text.items ≡ flat_map script_text low.entry.now) }
        { self.scripts_in_parts(rt, left, low) };
        let back = move || -> Part
            requires { IsSync R.row }
            ensures { IfOk result (λ text. text.items ≡ flat_map script_text high.entry.now) }
        { self.scripts_in_parts(rt, left, high) };
        let (low, high) = thread::join(rt, front, back);
        in_order(low, high)
    }
}

// How often so many lines are halved to be printed: not at all where they are few.
fn halvings_of<R: Threads>(rt: &R, lines: usize) -> u32 {
    if lines < FEW_LINES { 0 } else { halvings(rt) }
}

// How many steady lines there are, up to what a number can say.
fn count_lines(steady: &[ScriptLines]) -> usize {
    let mut count: usize = 0;
    for script in steady {
        count = count.saturating_add(script.lines.as_slice().len());
    }
    count
}

/// The transcript of a history and of the steady lines of its processes, as `print` makes it, in less time where it is long: by
/// two or four threads, as there are processors.
pub fn print_by_threads<R: Threads + Sync>(
    rt: &R,
    alloc: Global,
    lib: &Library,
    history: &[Entry],
    steady: &[ScriptLines],
) -> Result<Text, NoMemory>
    ensures { IfOk result (λ text. text ≡ Transcript lib.now history.now steady.now) }
{
    let printer = Printer { alloc, lib, steady };
    let mut out = Vec::new(alloc);
    push_line(&mut out, &[Word::Text(b"history")])?;
    let halvings = halvings_of(rt, history.len());
    out.append(&mut printer.entries_in_parts(rt, halvings, 0, history)?)?;
    let halvings = halvings_of(rt, count_lines(steady));
    out.append(&mut printer.scripts_in_parts(rt, halvings, steady)?)?;
    push_summary(&mut out, history, steady)?;
    Ok(Seq::from_vec(out))
}
