//! The records of segments and groups ("98h SEGDEF", "9Ah GRPDEF").

ghost use Rattle.std.specs.Prelude.{◌≡◌, ◌++◌, ◌≤◌, ◌<◌, IfOk, OnOk, length};
ghost use Rattle.std.specs.List.{AllByRecursion, flat_map};
ghost use Rattle.omf_write.specs.ObjectBytes.{place_bytes, segdef_bytes, segdef_record, member_bytes, grpdef_bytes, grpdef_record};
ghost use Rattle.omf_write.specs.ObjectFits.{SegFits, GroupFits};

use crate::fields::push_index;
use crate::framed::push_record;
use crate::tables::name_index;
use lx_types::NoMemory;
use name_table::NameTable;
use obj_types::{ALIGN_ABSOLUTE, Group, Seg};
use omf_frame::record_type::{GRPDEF, SEGDEF_32};
use std::alloc::{AllocError, Global};

// Writes the frame and the offset of an absolute segment, which are 0.
fn push_place(out: &mut Vec<u8>, align: u8) -> Result<(), AllocError>
    ensures { OnOk result (out.new.items ≡ out.old.items ++ place_bytes align) }
{
    if align == ALIGN_ABSOLUTE {
        out.extend_from_slice(&[0, 0, 0])?;
    }
    Ok(())
}

// The contents of a SEGDEF record.
#[tactic(auto, using(crate::proofs::SegmentsRead::seg_short))]
fn segdef_contents(alloc: Global, names: &NameTable<u8>, seg: &Seg) -> Result<Vec<u8>, NoMemory>
    requires { length names.now ≤ 32767 }
    ensures is { IfOk result (λ contents. contents.items ≡ segdef_bytes names.now seg.now) }
    ensures short { IfOk result (λ contents. length contents.items < 65535) }
    ensures fits { IfOk result (λ _. SegFits seg.now) }
{
    let mut contents = Vec::new(alloc);
    contents.push(seg.align % 8 * 32 + seg.combine % 8 * 4 + u8::from(seg.wide))?;
    push_place(&mut contents, seg.align)?;
    contents.extend_from_slice(&seg.len.to_le_bytes())?;
    push_index(&mut contents, name_index(names, seg.name.bytes()))?;
    push_index(&mut contents, name_index(names, seg.class.bytes()))?;
    contents.push(0)?;
    Ok(contents)
}

/// Writes a record for each segment.
pub fn push_segments(
    alloc: Global,
    out: &mut Vec<u8>,
    names: &NameTable<u8>,
    segs: &[Seg],
) -> Result<(), NoMemory>
    requires { length names.now ≤ 32767 }
    ensures is { OnOk result (out.new.items ≡ out.old.items ++ flat_map (segdef_record names.now) segs.now) }
    ensures fits { OnOk result (AllByRecursion SegFits segs.now) }
{
    for seg in segs {
        let contents = segdef_contents(alloc, names, seg)?;
        push_record(out, SEGDEF_32, &contents)?;
    }
    Ok(())
}

// Writes the members of a group.
fn push_members(out: &mut Vec<u8>, members: &[u32]) -> Result<(), AllocError>
    ensures { OnOk result (out.new.items ≡ out.old.items ++ flat_map member_bytes members.now) }
{
    for &member in members {
        out.push(255)?;
        push_index(out, member)?;
    }
    Ok(())
}

// The contents of a GRPDEF record.
fn grpdef_contents(alloc: Global, names: &NameTable<u8>, group: &Group) -> Result<Vec<u8>, NoMemory>
    requires { length names.now ≤ 32767 }
    ensures is { IfOk result (λ contents. contents.items ≡ grpdef_bytes names.now group.now) }
    ensures fits { IfOk result (λ _. GroupFits group.now) }
{
    let mut contents = Vec::new(alloc);
    push_index(&mut contents, name_index(names, group.name.bytes()))?;
    push_members(&mut contents, group.members.as_slice())?;
    Ok(contents)
}

/// Writes a record for each group, which has room for its members.
pub fn push_groups(
    alloc: Global,
    out: &mut Vec<u8>,
    names: &NameTable<u8>,
    groups: &[Group],
) -> Result<(), NoMemory>
    requires few { length names.now ≤ 32767 }
    requires room { AllByRecursion (λ g. length (grpdef_bytes names.now g) < 65535) groups.now }
    ensures is { OnOk result (out.new.items ≡ out.old.items ++ flat_map (grpdef_record names.now) groups.now) }
    ensures fits { OnOk result (AllByRecursion GroupFits groups.now) }
{
    for group in groups {
        let contents = grpdef_contents(alloc, names, group)?;
        push_record(out, GRPDEF, &contents)?;
    }
    Ok(())
}
