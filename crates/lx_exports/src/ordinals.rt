//! The ordinals of exports: those that they ask for, and the least free ones for the others.

ghost use Rattle.std.specs.Prelude.{◌≡◌, ◌<◌, ◌≤◌, ◌==◌, ◌||◌, ℕ, not, None, Some, true, false, IfOk, MatchOption, length, slice_index_or, slice_set};
ghost use Rattle.std.specs.Bool.{MatchBool};
ghost use Rattle.lx_types.specs.Answers.{Answers};
ghost use Rattle.link_model.specs.Exports.{given, ordinals, wrong_ordinal, ordinal_past};
ghost use Rattle.lx_exports.specs.Exports.{asked, ordinal_refusal};
ghost use Rattle.lx_exports.specs.Marks.{AreMarksOf, wrong_among, IsWrong, TakesOrdinal};

use crate::exports::OutEntry;
use link_model::{EntryRefusal, MAX_NUMBER};
use lx_types::{Fail, NoMemory, Seq};
use std::alloc::Global;

// The ordinals that exports ask for.
fn asked_ordinals(alloc: Global, exports: &[OutEntry]) -> Result<Vec<u16>, NoMemory>
    ensures { IfOk result (λ asked_for. asked_for.items ≡ given (asked exports.now)) }
{
    let mut asked_for = Vec::new(alloc);
    for export in exports {
        if let Some(ordinal) = export.ordinal {
            asked_for.push(ordinal)?;
        }
    }
    Ok(asked_for)
}

// Marks a number, unless it is 0 or has a mark already; whether it did.
fn mark(marks: &mut Vec<bool>, ordinal: u16) -> bool
    requires { length marks.old.items ≡ 65536 }
    ensures told { result ≡ not (ordinal == 0 || slice_index_or marks.old.items ordinal false) }
    ensures marked { MatchBool result
        (marks.new.items ≡ slice_set marks.old.items ordinal true) (marks.new.items ≡ marks.old.items) }
{
    let at = usize::from(ordinal);
    if at == 0 || marks[at] {
        return false;
    }
    marks[at] = true;
    true
}

// The marks of these numbers. 0 and a number that stands there twice are refused.
fn marks_of(alloc: Global, numbers: &[u16]) -> Result<Vec<bool>, Fail<EntryRefusal>>
    ensures { Answers result
        (λ marks. AreMarksOf marks.items numbers.now × (wrong_among numbers.now 0 numbers.now ≡ None))
        (λ refusal. IsWrong refusal (wrong_among numbers.now 0 numbers.now)) }
{
    let mut marks = vec![in alloc; false; 65_536]?;
    for &ordinal in numbers {
        if !mark(&mut marks, ordinal) {
            let n = u32::from(ordinal);
            return Err(Fail::Said(EntryRefusal::Ordinal { n }));
        }
    }
    Ok(marks)
}

// The marks of the ordinals that exports ask for.
fn asked_marks(alloc: Global, exports: &[OutEntry]) -> Result<Vec<bool>, Fail<EntryRefusal>>
    ensures { Answers result
        (λ marks. AreMarksOf marks.items (given (asked exports.now)) × (wrong_ordinal (asked exports.now) ≡ None))
        (λ refusal. wrong_ordinal (asked exports.now) ≡ Some refusal) }
{
    let asked_for = asked_ordinals(alloc, exports)?;
    marks_of(alloc, &asked_for)
}

// The least number from `from` on that has no mark, or None where each one has.
fn free_from(marks: &[bool], from: usize) -> Option<usize>
    ensures { MatchOption result
        ((n : ℕ) → from ≤ n → n < length marks.now → slice_index_or marks.now n false ≡ true)
        (λ free. (from ≤ free) × (free < length marks.now) × (slice_index_or marks.now free false ≡ false)
        × ((n : ℕ) → from ≤ n → n < free → slice_index_or marks.now n false ≡ true)) }
{
    let mut at = from;
    while at < marks.len() {
        if !marks[at] {
            return Some(at);
        }
        at += 1;
    }
    None
}

// The ordinal of an export that asks for this one or for none. The free numbers below `from` are
// taken; where a free one is found, `from` stands after it. None where no free one is left.
fn take_ordinal(marks: &[bool], asked_for: Option<u16>, from: &mut usize) -> Option<u16>
    requires all { length marks.now ≡ 65536 }
    ensures { TakesOrdinal marks.now asked_for from.old from.new result }
{
    if asked_for.is_some() {
        return asked_for;
    }
    let free = free_from(marks, *from)?;
    *from = free + 1;
    Some(free as u16)
}

// Gives the exports their ordinals, in their order.
fn give_ordinals(
    alloc: Global,
    exports: &[OutEntry],
    marks: &[bool],
) -> Result<Seq<u16>, Fail<EntryRefusal>>
    requires { AreMarksOf marks.now (given (asked exports.now)) }
    ensures { Answers result
        (λ numbers. (numbers ≡ ordinals (asked exports.now)) × (ordinal_past MAX_NUMBER (asked exports.now) ≡ None))
        (λ refusal. ordinal_past MAX_NUMBER (asked exports.now) ≡ Some refusal) }
{
    let mut ordinals = Seq::new(alloc);
    let mut from = 1;
    for export in exports {
        let Some(ordinal) = take_ordinal(marks, export.ordinal, &mut from) else {
            let n = MAX_NUMBER + 1;
            return Err(Fail::Said(EntryRefusal::Ordinal { n }));
        };
        ordinals.push(ordinal)?;
    }
    Ok(ordinals)
}

/// The ordinals of exports, in their order. Those that ask for none take the least free ones.
pub fn ordinals_of(alloc: Global, exports: &[OutEntry]) -> Result<Seq<u16>, Fail<EntryRefusal>>
    ensures { Answers result
        (λ numbers. (numbers ≡ ordinals (asked exports.now)) × (ordinal_refusal (asked exports.now) ≡ None))
        (λ refusal. ordinal_refusal (asked exports.now) ≡ Some refusal) }
{
    let marks = asked_marks(alloc, exports)?;
    give_ordinals(alloc, exports, &marks)
}
