//! The records of a page, written one after another.

ghost use Rattle.std.specs.Prelude.{◌≡◌, ◌<◌, ◌++◌, [], length, drop, ◌+◌, true, false, Some, All, IfOk, slice_get};
ghost use Rattle.lx_types.specs.declared.fix.Fix.{Fix};
ghost use Rattle.lx_model.specs.RecordSpelling.{target_spelling, additive_spelling, offsets_spelling, record_spelling, OffsetFits};
ghost use Rattle.lx_fixrec.specs.Writable.{IsWritable};
ghost use Rattle.lx_fixrec.specs.Writes.{shortest_flags, record_with};
ghost use Rattle.lx_fixrec.specs.Links.{AreLinks, listed_offsets};

use crate::sources::source_byte;
use crate::spelling::{flags_of, push_additive, push_offset, push_offsets, push_target};
use lx_model::MAX_LISTED;
use lx_types::Fix;
use std::alloc::AllocError;

// The target and the additive.
#[tactic(auto, using(crate::proofs::Fits::target_fits, crate::proofs::Fits::additive_room))]
fn push_fields(out: &mut Vec<u8>, flags: u8, fix: &Fix) -> Result<(), AllocError>
    requires writable { IsWritable fix.now }
    requires flags { flags ≡ shortest_flags fix.now.target fix.now.additive }
    ensures { IfOk result (λ _. out.new.items
        ≡ out.old.items ++ (target_spelling fix.now.source flags fix.now.target ++ additive_spelling flags fix.now.additive)) }
{
    push_target(out, fix.source, flags, fix.target)?;
    push_additive(out, flags, fix.additive)
}

// A list: how many, the target, the additive, the offsets.
fn push_list(out: &mut Vec<u8>, flags: u8, first: &Fix, others: &[i32]) -> Result<(), AllocError>
    requires writable { IsWritable first.now }
    requires flags { flags ≡ shortest_flags first.now.target first.now.additive }
    requires others { All (OffsetFits first.now.source) others.now }
    requires few { length others.now < 255 }
    ensures { IfOk result (λ _. out.new.items
        ≡ out.old.items ++ offsets_spelling true (record_with first.now others.now) flags) }
{
    out.push(others.len() as u8 + 1)?;
    push_fields(out, flags, first)?;
    push_offset(out, first.source, first.offset)?;
    push_offsets(out, first.source, others)
}

// One source: the offset, the target, the additive.
fn push_single(out: &mut Vec<u8>, flags: u8, fix: &Fix) -> Result<(), AllocError>
    requires writable { IsWritable fix.now }
    requires flags { flags ≡ shortest_flags fix.now.target fix.now.additive }
    ensures { IfOk result (λ _. out.new.items
        ≡ out.old.items ++ offsets_spelling false (record_with fix.now []) flags) }
{
    push_offset(out, fix.source, fix.offset)?;
    push_fields(out, flags, fix)
}

/// Adds the record of a source and of those that stand at other offsets.
pub fn push_record(out: &mut Vec<u8>, first: &Fix, others: &[i32]) -> Result<(), AllocError>
    requires writable { IsWritable first.now }
    requires others { All (OffsetFits first.now.source) others.now }
    requires few { length others.now < 255 }
    ensures { IfOk result (λ _. out.new.items ≡ out.old.items ++ record_spelling (record_with first.now others.now)) }
{
    let flags = flags_of(first.target, first.additive);
    let source = source_byte(first.source, first.alias, !others.is_empty());
    out.extend_from_slice(&[source, flags])?;
    if others.is_empty() {
        push_single(out, flags, first)
    } else {
        push_list(out, flags, first, others)
    }
}

// Gathers the offsets that the record of a source lists after it.
fn gather(
    offsets: &mut Vec<i32>,
    sources: &[Fix],
    links: &[usize],
    place: usize,
) -> Result<(), AllocError>
    requires place { place < length sources.now }
    requires links { AreLinks sources.now links.now }
    ensures { IfOk result (λ _. (f : Fix) → slice_get sources.now place ≡ Some f → offsets.new.items ≡ listed_offsets f (drop (place + 1) sources.now)) }
{
    offsets.clear();
    let mut next = links[place];
    'listed: while next < sources.len() && offsets.len() + 1 < MAX_LISTED {
        offsets.push(sources[next].offset)?;
        next = links[next];
    }
    Ok(())
}

/// Adds the record that a source begins. `offsets` is room for those of the others.
pub fn push_begun(
    out: &mut Vec<u8>,
    offsets: &mut Vec<i32>,
    sources: &[Fix],
    links: &[usize],
    place: usize,
) -> Result<(), AllocError>
    requires place { place < length sources.now }
    requires writable { All IsWritable sources.now }
    requires links { AreLinks sources.now links.now }
    ensures { IfOk result (λ _. (f : Fix) → slice_get sources.now place ≡ Some f
        → out.new.items ≡ out.old.items ++ record_spelling (record_with f (listed_offsets f (drop (place + 1) sources.now)))) }
{
    gather(offsets, sources, links, place)?;
    push_record(out, &sources[place], offsets.as_slice())
}
