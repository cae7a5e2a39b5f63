//! Fixups ("9Ch FIXUPP"), without threads.

ghost use Rattle.std.specs.Prelude.{◌≡◌, ◌++◌, ◌*◌, ◌≤◌, ◌<◌, ◌^◌, IfOk, OnOk, length, take, drop};
ghost use Rattle.std.specs.List.{AllByRecursion, flat_map};
ghost use Rattle.omf_write.specs.ObjectBytes.{frame_method, frame_bytes, goal_method, goal_index, fix_data_bytes, location_high, fixup_bytes, fixupp_record, fixupp_records, records_needed};
ghost use Rattle.omf_write.specs.ObjectFits.{FixFits};

use crate::fields::push_index;
use crate::framed::push_record;
use lx_types::NoMemory;
use obj_types::{FixAt, Frame, Goal};
use omf_frame::record_type::FIXUPP_32;
use std::alloc::{AllocError, Global};

// How many fixups a record has.
const PER_RECORD: usize = 64;

// The frame's method.
fn frame_method(frame: Frame) -> u8
    ensures { result ≡ frame_method frame }
{
    match frame {
        Frame::Seg(_) => 0,
        Frame::Group(_) => 1,
        Frame::Ext(_) => 2,
        Frame::Here => 4,
        Frame::OfTarget => 5,
    }
}

// Writes the frame's index, where its method has one.
fn push_frame(out: &mut Vec<u8>, frame: Frame) -> Result<(), AllocError>
    ensures { OnOk result (out.new.items ≡ out.old.items ++ frame_bytes frame) }
{
    match frame {
        Frame::Seg(index) => push_index(out, index),
        Frame::Group(index) => push_index(out, index),
        Frame::Ext(index) => push_index(out, index),
        Frame::Here => Ok(()),
        Frame::OfTarget => Ok(()),
    }
}

// The target's method.
fn goal_method(goal: Goal) -> u8
    ensures { result ≡ goal_method goal }
{
    match goal {
        Goal::Seg(_) => 0,
        Goal::Group(_) => 1,
        Goal::Ext(_) => 2,
    }
}

// The target's index.
fn goal_index(goal: Goal) -> u32
    ensures { result ≡ goal_index goal }
{
    match goal {
        Goal::Seg(index) => index,
        Goal::Group(index) => index,
        Goal::Ext(index) => index,
    }
}

/// Writes a fix byte and what it says stands after it: the indices of frame and target, and a displacement of 4
/// bytes.
pub fn push_fix_data(
    out: &mut Vec<u8>,
    frame: Frame,
    goal: Goal,
    disp: u32,
) -> Result<(), AllocError>
    ensures is { OnOk result (out.new.items ≡ out.old.items ++ fix_data_bytes frame goal disp) }
    ensures fits { disp < 2 ^ 32 }
{
    out.push(frame_method(frame) * 16 + goal_method(goal))?;
    push_frame(out, frame)?;
    push_index(out, goal_index(goal))?;
    out.extend_from_slice(&disp.to_le_bytes())?;
    Ok(())
}

// The first byte of a fixup at an offset of its record's data.
fn location_high(fix: &FixAt, offset: u32) -> u8
    ensures { result ≡ location_high fix.now offset }
{
    128 + u8::from(!fix.selfrel) * 64 + fix.loc % 16 * 4 + (offset / 256 % 4) as u8
}

// Writes a fixup of a record whose data begins at an offset of the segment.
fn push_fixup(out: &mut Vec<u8>, from: u32, fix: &FixAt) -> Result<(), AllocError>
    ensures is { OnOk result (out.new.items ≡ out.old.items ++ fixup_bytes from fix.now) }
    ensures fits { OnOk result (FixFits fix.now) }
{
    let offset = fix.offset.saturating_sub(from);
    out.push(location_high(fix, offset))?;
    out.push((offset % 256) as u8)?;
    push_fix_data(out, fix.frame, fix.goal, fix.disp)?;
    Ok(())
}

// The contents of a FIXUPP record.
fn fixupp_contents(alloc: Global, from: u32, fixes: &[FixAt]) -> Result<Vec<u8>, NoMemory>
    ensures { IfOk result (λ contents. contents.items ≡ flat_map (fixup_bytes from) fixes.now) }
{
    let mut contents = Vec::new(alloc);
    for fix in fixes {
        push_fixup(&mut contents, from, fix)?;
    }
    Ok(contents)
}

// Writes a record of at most 64 fixups.
#[tactic(auto, using(crate::proofs::FixupBytes::bytes_short))]
fn push_fixupp(alloc: Global, out: &mut Vec<u8>, from: u32, fixes: &[FixAt]) -> Result<(), NoMemory>
    requires { length fixes.now ≤ 64 }
    ensures { OnOk result (out.new.items ≡ out.old.items ++ fixupp_record from fixes.now) }
{
    let contents = fixupp_contents(alloc, from, fixes)?;
    push_record(out, FIXUPP_32, &contents)?;
    Ok(())
}

// The fixups of the record of a place.
#[tactic(auto, using(crate::proofs::FixupBytes::cut_at))]
fn fixups_at(fixes: &[FixAt], place: usize) -> &[FixAt]
    requires { place * 64 ≤ length fixes.now }
    ensures is { result.now ≡ take 64 (drop (place * 64) fixes.now) }
    ensures few { length result.now ≤ 64 }
{
    let rest = &fixes[place * PER_RECORD..];
    let len = rest.len().min(PER_RECORD);
    &rest[..len]
}

/// Writes the fixups on a data record whose data begins at an offset of the segment, 64 to a record.
pub fn push_fixups(
    alloc: Global,
    out: &mut Vec<u8>,
    from: u32,
    fixes: &[FixAt],
) -> Result<(), NoMemory>
    ensures { OnOk result (out.new.items ≡ out.old.items ++ fixupp_records (records_needed fixes.now) from fixes.now) }
{
    let count = (fixes.len() + (PER_RECORD - 1)) / PER_RECORD;
    for place in 0..count {
        push_fixupp(alloc, out, from, fixups_at(fixes, place))?;
    }
    Ok(())
}

// What the type of a displacement says of it.
fn disp_fits(disp: u32)
    ensures { disp < 2 ^ 32 }
{
    let _value = disp;
}

/// What the type of the displacements says of them.
pub fn fixes_fit(fixes: &[FixAt])
    ensures { AllByRecursion FixFits fixes.now }
{
    for fix in fixes {
        disp_fits(fix.disp);
    }
}
