//! What the iterated data of "A2h LIDATA" expands to.

ghost use Rattle.std.specs.Prelude.{◌≡◌, ◌++◌, ◌≤◌, Ok, OnOk, take, drop, vec_len};
ghost use Rattle.std.specs.List.{repeat};
ghost use Rattle.omf_model.specs.Blocks.{expanded as data_of};
ghost use Rattle.lx_types.specs.Answers.{as_is, if_said, Gives, Reads};
ghost use Rattle.omf_model.specs.ReadBlocks.{blocks_in};
ghost use Rattle.omf_data.specs.Expanding.{SpellsBlocks, skipped_at, expanded_at};

use crate::measure::measured_block;
use lx_types::{Fail, NoMemory};
use obj_types::{MAX_DEPTH, OmfRefusal};
use omf_fields::{Fields, said};
use omf_frame::Rec;
use std::alloc::Global;

/// Repeats the bytes from `start` on, which stand there once, so that they stand there `times` times.
fn repeat_from(into: &mut Vec<u8>, start: usize, times: u32) -> Result<(), NoMemory>
    requires some { 1 ≤ times }
    requires there { start ≤ vec_len into.old }
    ensures { OnOk result (into.new.items ≡ take start into.old.items ++ repeat times (drop start into.old.items)) }
{
    let end = into.len();
    // Nothing, however often, takes no time.
    if start == end {
        return Ok(());
    }
    let mut done = 1;
    'copies: while done < times {
        into.extend_from_within(start..end)?;
        done += 1;
    }
    Ok(())
}

/// Adds the content of an innermost block, `times` times.
fn push_repeated(into: &mut Vec<u8>, content: &[u8], times: u32) -> Result<(), NoMemory>
    ensures { OnOk result (into.new.items ≡ into.old.items ++ repeat times content.now) }
{
    if times == 0 {
        return Ok(());
    }
    let start = into.len();
    into.extend_from_slice(content)?;
    repeat_from(into, start, times)
}

/// Passes over `count` blocks, with `left` depths left.
fn skip_blocks(fields: &mut Fields, wide: bool, left: u32, count: u16) -> Result<(), OmfRefusal>
    ensures { Reads (λ _. count) as_is result (skipped_at left wide count) fields.old fields.new }
{
    let mut more = count;
    'skipped: while more > 0 {
        let _len = measured_block(fields, wide, left)?;
        more -= 1;
    }
    Ok(())
}

/// Adds the data of the next block, with `left` depths left.
#[tactic(auto, unfolding(omf_model::specs::ReadBlocks::block_at))]
fn expand_block(
    fields: &mut Fields,
    wide: bool,
    left: u32,
    into: &mut Vec<u8>,
) -> Result<(), Fail<OmfRefusal>>
    ensures { Reads (λ _. into.new.items) if_said result (expanded_at left wide into.old.items) fields.old fields.new }
{
    let at = fields.at();
    let times = said(fields.number(wide))?;
    if left == 0 {
        return Err(Fail::Said(OmfRefusal::Nested { at }));
    }
    let count = said(fields.word())?;
    if count == 0 {
        let len = said(fields.byte())?;
        let content = said(fields.bytes(usize::from(len)))?;
        push_repeated(into, content, times)?;
        return Ok(());
    }
    // What is repeated no time is not expanded.
    if times == 0 {
        said(skip_blocks(fields, wide, left - 1, count))?;
        return Ok(());
    }
    let start = into.len();
    let mut more = count;
    'inner: while more > 0 {
        expand_block(fields, wide, left - 1, into)?;
        more -= 1;
    }
    repeat_from(into, start, times)?;
    Ok(())
}

/// The data of the blocks that a body spells, `len` bytes.
pub fn expanded(
    alloc: Global,
    wide: bool,
    body: &[u8],
    len: u32,
) -> Result<Vec<u8>, Fail<OmfRefusal>>
    requires { SpellsBlocks wide body.now }
    // It refuses nothing.
    ensures { Gives (λ bytes. bytes.items) if_said result (Ok (data_of (blocks_in wide body.now))) }
{
    let mut bytes = Vec::with_capacity(alloc, len as usize)?;
    let mut fields = Fields::of(&Rec { at: 0, ty: 0, body });
    'all: while !fields.is_empty() {
        expand_block(&mut fields, wide, MAX_DEPTH, &mut bytes)?;
    }
    Ok(bytes)
}
