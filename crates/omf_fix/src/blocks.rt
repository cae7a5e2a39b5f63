//! Fixups on the blocks of an LIDATA record: each takes the time of the blocks and of its copies.

ghost use Rattle.std.specs.Prelude.{◌≡◌, ◌+◌, ◌++◌, ◌≤◌, ◌&&◌, IfOk, OnOk, IsSomeAnd, nat_le, map, true};
ghost use Rattle.std.specs.List.{All, list_any};
ghost use Rattle.obj_types.specs.Items.{item};
ghost use Rattle.omf_data.specs.Marks.{HaveAll};
ghost use Rattle.omf_fix.specs.FixData.{data_of};
ghost use Rattle.omf_fix.specs.Placed.{placed, fix_of, IsBlocks};
ghost use Rattle.omf_model.specs.Begun.{IsBegun};
ghost use Rattle.omf_model.specs.Fixups.{is_location as location_there, touches};
ghost use Rattle.lx_types.specs.Answers.{if_said, Gives};

use crate::fix_data::{FixFields, meaning};
use crate::found::copies_in;
use crate::location::{location, offset};
use crate::place::{FixPlace, fix_at};
use lx_types::{Fail, NoMemory, Seq};
use obj_types::{FixAt, LastData, MAX_FIXES, ObjParts, OmfRefusal, Seg, StartAt, location_len};
use omf_data::Marks;
use std::alloc::Global;

/// Whether so many bytes from an offset on are among those of one innermost block.
fn is_in_block(contents: &[(usize, usize)], offset: usize, past: usize) -> bool
    ensures { result ≡ list_any (λ block. nat_le block.0 offset && nat_le past block.1) contents.now }
{
    contents
        .iter()
        .any(|block| block.0 <= offset && past <= block.1)
}

/// The offset in a segment of a place in data that begins at `start` and lies in the segment.
pub fn in_segment(segs: &[Seg], index: u32, start: u32, place: u32) -> u32
    requires { IsSomeAnd (item segs.now index) (λ segment. start + place ≤ segment.len) }
    ensures { result ≡ start + place }
{
    // The segment's end has 32 bits, and the sum is not past it.
    let _end = segs[index as usize - 1].len;
    start + place
}

/// The offsets in a segment of places in data that begins at `start`.
fn copies_of(
    alloc: Global,
    places: &[u32],
    segs: &[Seg],
    seg: u32,
    start: u32,
) -> Result<Vec<u32>, NoMemory>
    requires { IsSomeAnd (item segs.now seg) (λ segment. All (λ x. start + x ≤ segment.len) places.now) }
    ensures { IfOk result (λ copies. copies.items ≡ map (λ x. start + x) places.now) }
{
    let mut copies = Vec::with_capacity(alloc, places.len())?;
    let mut next = 0;
    'places: while next < places.len() {
        copies.push(in_segment(segs, seg, start, places[next]))?;
        next += 1;
    }
    Ok(copies)
}

/// Whether so many bytes from one of these offsets on share one with the location of a fix.
fn meets_copies(
    parts: &ObjParts,
    marks: &mut Marks,
    seg: u32,
    copies: &[u32],
    size: u32,
) -> Result<bool, NoMemory>
    requires { HaveAll marks.old parts.now }
    ensures meets { IfOk result (λ meets. meets ≡ list_any (λ x. list_any (touches seg x size) parts.now.module.fixes) copies.now) }
    ensures marks { HaveAll marks.new parts.now }
{
    let mut next = 0;
    'copies: while next < copies.len() {
        if marks.is_on_fix(parts, seg, copies[next], size)? {
            return Ok(true);
        }
        next += 1;
    }
    Ok(false)
}

/// Adds a fix at each of these offsets.
fn push_copies(
    fixes: &mut Seq<FixAt>,
    seg: u32,
    copies: &[u32],
    place: FixPlace,
    what: StartAt,
) -> Result<(), NoMemory>
    ensures { OnOk result (fixes.new ≡ fixes.old ++ map (λ x. fix_of seg x place.high what) copies.now) }
{
    let mut next = 0;
    'copies: while next < copies.len() {
        fixes.push(fix_at(seg, copies[next], place, what))?;
        next += 1;
    }
    Ok(())
}

/// Adds a fixup on the blocks of the last data record, one fix in each copy, in ascending order. The fixes are
/// counted before memory is taken for them. A block that repeats 0 times has none.
pub fn add_blocks(
    alloc: Global,
    into: &mut ObjParts,
    marks: &mut Marks,
    place: FixPlace,
    d: FixFields,
) -> Result<(), Fail<OmfRefusal>>
    requires marks { HaveAll marks.old into.old }
    requires location { location_there place.high ≡ true }
    requires begun { IsBegun into.old }
    requires last { IsBlocks into.old.last }
    ensures placed { Gives (λ _. into.new) if_said result (placed into.old place (data_of d)) }
    ensures marks { HaveAll marks.new into.old }
{
    let at = place.at;
    let low = usize::from(offset(place.high, place.low));
    let size = u32::from(location_len(location(place.high)));
    let what = meaning(d, into);
    let (seg, start, found) = match &into.last {
        LastData::Blocks {
            seg,
            offset,
            wide,
            body,
        } => (
            *seg,
            *offset,
            copies_in(alloc, *wide, body.as_slice(), low)?,
        ),
        _ => return Err(Fail::Said(OmfRefusal::NoData { at })),
    };
    if !is_in_block(found.contents.as_slice(), low, low + size as usize) {
        return Err(Fail::Said(OmfRefusal::NoData { at }));
    }
    let segs = into.module.segs.as_slice();
    let copies = copies_of(alloc, found.places.as_slice(), segs, seg, start)?;
    let meets = meets_copies(into, marks, seg, copies.as_slice(), size)?;
    if meets {
        return Err(Fail::Said(OmfRefusal::FixOverlap { at }));
    }
    if into.module.fixes.as_slice().len() + copies.len() > MAX_FIXES as usize {
        return Err(Fail::Said(OmfRefusal::TooMany {
            at: place.of_record,
        }));
    }
    push_copies(&mut into.module.fixes, seg, copies.as_slice(), place, what)?;
    Ok(())
}
