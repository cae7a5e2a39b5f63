//! What a good fixup adds, and when it is refused for its place.

ghost use Rattle.std.specs.Prelude.{◌≡◌, ◌+◌, true, false};
ghost use Rattle.omf_data.specs.Marks.{HaveAll};
ghost use Rattle.omf_fix.specs.Placed.{LiesUpTo, placed, fix_of};
ghost use Rattle.omf_fix.specs.FixData.{data_of};
ghost use Rattle.omf_model.specs.Begun.{IsBegun};
ghost use Rattle.omf_model.specs.Fixups.{is_location as location_there};
ghost use Rattle.lx_types.specs.Answers.{if_said, Gives};
ghost use Rattle.omf_model.specs.ReadFixups.{is_dropped};
ghost use Rattle.obj_types.specs.declared.parts.LastData.TheVariants.{Straight};

use crate::blocks::{add_blocks, in_segment};
use crate::fix_data::{FixFields, meaning};
use crate::location::{is_self_relative, location, offset};
use lx_types::Fail;
use obj_types::{
    COMDAT_BASE, FixAt, LastData, MAX_FIXES, ObjParts, OmfRefusal, StartAt, location_len,
};
use omf_data::Marks;
use std::alloc::Global;

/// The first two bytes of a fixup, its place and the place of its record.
#[derive(Clone, Copy)]
pub struct FixPlace {
    pub of_record: usize,
    pub at: usize,
    pub high: u8,
    pub low: u8,
}

/// The fix at an offset of a segment.
pub fn fix_at(seg: u32, offset: u32, place: FixPlace, what: StartAt) -> FixAt
    ensures { result ≡ fix_of seg offset place.high what }
{
    FixAt {
        seg,
        offset,
        loc: location(place.high),
        selfrel: is_self_relative(place.high),
        frame: what.frame,
        goal: what.goal,
        disp: what.disp,
    }
}

/// The data of an LEDATA or a COMDAT record: so many bytes from an offset of a segment on.
#[derive(Clone, Copy)]
struct StraightData {
    seg: u32,
    start: u32,
    len: u32,
}

/// The offset in the segment of a place in the data of an LEDATA record or a COMDAT record, which lies in its segment.
fn in_straight(before: &ObjParts, data: StraightData, place: u32) -> u32
    requires { LiesUpTo before.now.module.segs «data».seg («data».start + place) }
    ensures { result ≡ «data».start + place }
{
    if data.seg > COMDAT_BASE {
        // The data of a COMDAT ends within the limit of a module's data.
        return data.start + place;
    }
    in_segment(before.module.segs.as_slice(), data.seg, data.start, place)
}

/// Adds the fixup on the data of an LEDATA or a COMDAT record.
fn add_straight(
    into: &mut ObjParts,
    marks: &mut Marks,
    data: StraightData,
    place: FixPlace,
    d: FixFields,
) -> Result<(), Fail<OmfRefusal>>
    requires begun { IsBegun into.old }
    requires location { location_there place.high ≡ true }
    requires last { into.old.last ≡ Straight «data».seg «data».start «data».len }
    requires marks { HaveAll marks.old into.old }
    ensures placed { Gives (λ _. into.new) if_said result (placed into.old place (data_of d)) }
    ensures marks { HaveAll marks.new into.old }
{
    let at = place.at;
    let offset = u32::from(offset(place.high, place.low));
    let size = u32::from(location_len(location(place.high)));
    if offset + size > data.len {
        return Err(Fail::Said(OmfRefusal::NoData { at }));
    }
    let segment_offset = in_straight(into, data, offset);
    let fix = fix_at(data.seg, segment_offset, place, meaning(d, into));
    let on_fix = marks.is_on_fix(into, data.seg, segment_offset, size)?;
    if on_fix {
        return Err(Fail::Said(OmfRefusal::FixOverlap { at }));
    }
    if into.module.fixes.as_slice().len() >= MAX_FIXES as usize {
        return Err(Fail::Said(OmfRefusal::TooMany {
            at: place.of_record,
        }));
    }
    into.module.fixes.push(fix)?;
    Ok(())
}

/// Adds the fixes of a fixup whose fields are good: one on the data of an LEDATA record, one in each copy of an LIDATA
/// record's block. It is refused where its location is not within the data (`NoData`), shares a byte with an earlier
/// one (`FixOverlap`), or has more copies than a module may have fixups (`TooMany`).
pub fn place_fixup(
    alloc: Global,
    into: &mut ObjParts,
    marks: &mut Marks,
    place: FixPlace,
    d: FixFields,
) -> Result<(), Fail<OmfRefusal>>
    requires begun { IsBegun into.old }
    requires marks { HaveAll marks.old into.old }
    requires location { location_there place.high ≡ true }
    requires kept { is_dropped into.old.last ≡ false }
    ensures placed { Gives (λ _. into.new) if_said result (placed into.old place (data_of d)) }
    ensures marks { HaveAll marks.new into.old }
{
    match into.last {
        LastData::Straight { seg, offset, len } => {
            let data = StraightData {
                seg,
                start: offset,
                len,
            };
            add_straight(into, marks, data, place, d)
        }
        LastData::Blocks { .. } => add_blocks(alloc, into, marks, place, d),
        LastData::None | LastData::Dropped => Err(Fail::Said(OmfRefusal::NoData { at: place.at })),
    }
}
