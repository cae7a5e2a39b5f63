//! Which fixups are live.

ghost use Rattle.std.specs.Prelude.{◌≡◌, ◌+◌, ◌-◌, ◌<◌, ◌≤◌, ℕ, OnOk, IfOk, All, drop, length, map, replicate, set, if◌then◌else◌};
ghost use Rattle.obj_types.specs.Location.{location_len as len_of_location};
ghost use Rattle.link_model.specs.Mean.{live};
ghost use Rattle.link_fix.specs.Shown.{shown};
ghost use Rattle.link_fix.specs.Images.{byte_of, byte_after};
ghost use Rattle.link_fix.specs.Marks.{any_mark, AreMarked, HasBytes};

use crate::fixup::Fixup;
use crate::images::Images;
use crate::order::are_in_order;
use lx_types::NoMemory;
use obj_types::location_len;
use std::alloc::Global;

// Whether a byte of a fixup's field has a mark.
fn is_marked(marks: &Images, q: &Fixup) -> bool
    ensures { result ≡ any_mark (byte_of marks.now q.now.object) q.now.offset (len_of_location q.now.loc) }
{
    let mut at = q.offset as usize;
    let mut left = location_len(q.loc);
    'bytes: while 0 < left {
        if marks.byte(q.object, at) != 0 {
            return true;
        }
        at += 1;
        left -= 1;
    }
    false
}

// Marks the bytes of a fixup's field.
fn mark(alloc: Global, marks: &mut Images, q: &Fixup) -> Result<(), NoMemory>
    ensures { OnOk result ((n : ℕ) (x : ℕ) → byte_of marks.new n x
        ≡ byte_after marks.old q.now.object q.now.offset (replicate (len_of_location q.now.loc) 1) n x) }
{
    let ones = [1; 6];
    let len = usize::from(location_len(q.loc));
    marks.paint(alloc, q.object, q.offset as usize, &ones[..len])
}

// Keeps a fixup with which none that stands after it shares a byte, in front of those that are kept, and answers where
// these begin.
fn keep(fixups: &mut [Fixup], first: usize, marks: &Images, q: Fixup) -> usize
    requires some { 0 < first }
    requires within { first ≤ length fixups.old }
    ensures first { result ≡ (if any_mark (byte_of marks.now q.object) q.offset (len_of_location q.loc) then first else first - 1) }
    ensures fixups { fixups.new
        ≡ (if any_mark (byte_of marks.now q.object) q.offset (len_of_location q.loc) then fixups.old else set fixups.old (first - 1) q) }
{
    if is_marked(marks, &q) {
        return first;
    }
    fixups[first - 1] = q;
    first - 1
}

// Puts the live ones of these fixups, in order, after all others, and answers where they begin.
fn live_after(alloc: Global, fixups: &mut [Fixup]) -> Result<usize, NoMemory>
    requires { All HasBytes fixups.old }
    ensures within { IfOk result (λ first. first ≤ length fixups.new) }
    ensures live { IfOk result (λ first. map shown (drop first fixups.new) ≡ live (map shown fixups.old)) }
{
    let mut marks = Images::new(alloc);
    let mut left = fixups.len();
    let mut first = left;
    'fixups: while 0 < left {
        left -= 1;
        let q = fixups[left];
        first = keep(fixups, first, &marks, q);
        mark(alloc, &mut marks, &q)?;
    }
    Ok(first)
}

// Takes the first ones of these fixups away.
fn remove_first(fixups: &mut Vec<Fixup>, count: usize)
    requires { count ≤ length fixups.old.items }
    ensures { fixups.new.items ≡ drop count fixups.old.items }
{
    if count == 0 {
        return;
    }
    let len = fixups.len();
    fixups.copy_within(count..len, 0);
    fixups.truncate(len - count);
}

/// The live ones of these fixups, in order: those with which none that stands after them shares a byte. Where they do not
/// stand in order it goes from the last to the first and marks the bytes of each. They stay in the memory that all have.
pub(crate) fn live_of(alloc: Global, fixups: Vec<Fixup>) -> Result<Vec<Fixup>, NoMemory>
    requires { All HasBytes fixups.items }
    ensures { IfOk result (λ kept. map shown kept.items ≡ live (map shown fixups.items)) }
{
    if are_in_order(fixups.as_slice()) {
        return Ok(fixups);
    }
    let mut kept = fixups;
    let first = live_after(alloc, kept.as_mut_slice())?;
    remove_first(&mut kept, first);
    Ok(kept)
}
