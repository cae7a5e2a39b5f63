//! "A0h LEDATA".

ghost use Rattle.std.specs.Prelude.{◌≡◌, ◌⊎◌, ◌≤◌, ◌<◌, ◌^◌, false, IfOk, OnOk, length};
ghost use Rattle.obj_types.specs.declared.limits.TheConstants.{MAX_DATA};
ghost use Rattle.obj_types.specs.Items.{IsIndex};
ghost use Rattle.lx_types.specs.Answers.{if_said, Gives};
ghost use Rattle.omf_model.specs.Begun.{IsBegun};
ghost use Rattle.omf_model.specs.ReadAfter.{read_after, contents_at};
ghost use Rattle.omf_model.specs.Items.{data_so_far, is_debug_seg};
ghost use Rattle.omf_model.specs.ReadData.{ledata_at};
ghost use Rattle.omf_model.specs.ReadModule.{is_wide};
ghost use Rattle.omf_data.specs.Marks.{AreMarks, HaveAll};
ghost use Rattle.omf_data.specs.Data.{ledata_record};

use crate::marks::Marks;
use crate::place::{Place, judge, segment};
use lx_types::{Bytes, Fail, count};
use obj_types::{LastData, ObjParts, OmfRefusal, Piece};
use omf_fields::{Fields, said};
use omf_frame::Rec;
use omf_frame::record_type::{LEDATA, LEDATA_32};
use std::alloc::Global;

/// The fields of an LEDATA record.
#[derive(Clone, Copy)]
pub struct Straight<'a> {
    place: Place,
    bytes: &'a [u8],
}

// The fields of the record, which are good after those of `have` segments.
#[tactic(auto, unfolding(omf_model::specs::ReadData::ledata_at))]
fn fields_of<'a>(
    rec: &Rec<'a>,
    before: &ObjParts,
    marks: &mut Marks,
    have: u32,
) -> Result<Straight<'a>, Fail<OmfRefusal>>
    requires marks { HaveAll marks.old before.now }
    requires have { have ≡ length before.now.module.segs }
    requires limit { data_so_far before.now ≤ MAX_DATA }
    ensures read { Gives ledata_record if_said result (ledata_at (is_wide rec.now.ty) before.now rec.now.at (contents_at rec.now.at rec.now.body.now)) }
    ensures range { IfOk result (λ d. IsIndex before.now.module.segs d.place.seg) }
    ensures fits { IfOk result (λ d. is_debug_seg before.now.module.segs d.place.seg ≡ false → length d.bytes.now < 2 ^ 32) }
    ensures marks { HaveAll marks.new before.now }
{
    let wide = rec.ty % 2 == 1;
    let mut fields = Fields::of(rec);
    let seg = said(fields.index_below(have))?;
    let offset_at = fields.at();
    let offset = said(fields.number(wide))?;
    let bytes = fields.rest();
    let place = Place {
        seg,
        offset,
        offset_at,
    };
    judge(before, marks, rec.at, place, bytes.len())?;
    Ok(Straight { place, bytes })
}

/// Adds the data of an LEDATA record as a piece, which later fixups refer to. Data of a debug segment is dropped.
/// The marks see what they have not seen of the parts before. After a refusal nothing is told of the parts.
pub fn ledata_marked(
    alloc: Global,
    rec: &Rec,
    into: &mut ObjParts,
    marks: &mut Marks,
) -> Result<(), Fail<OmfRefusal>>
    requires kind { (rec.now.ty ≡ LEDATA) ⊎ (rec.now.ty ≡ LEDATA_32) }
    requires begun { IsBegun into.old }
    requires marks { AreMarks marks.old into.old }
    ensures read { Gives (λ _. into.new) if_said result (read_after into.old rec.now) }
    ensures marks { OnOk result (AreMarks marks.new into.new) }
{
    marks.see(into)?;
    let have = count(into.module.segs.as_slice().len())?;
    let Straight { place, bytes } = fields_of(rec, into, marks, have)?;
    let Place { seg, offset, .. } = place;
    if segment(into, seg).debug {
        into.last = LastData::Dropped;
        return Ok(());
    }
    let len = bytes.len() as u32;
    let bytes = Bytes::from_vec(Vec::from_slice(alloc, bytes)?);
    into.module.pieces.push(Piece { seg, offset, bytes })?;
    into.last = LastData::Straight { seg, offset, len };
    Ok(())
}

/// Adds the data of an LEDATA record ("A0h LEDATA") to parts of which no marks were kept. After a refusal nothing is
/// told of the parts.
pub fn ledata(alloc: Global, rec: &Rec, into: &mut ObjParts) -> Result<(), Fail<OmfRefusal>>
    requires kind { (rec.now.ty ≡ LEDATA) ⊎ (rec.now.ty ≡ LEDATA_32) }
    requires begun { IsBegun into.old }
    ensures { Gives (λ _. into.new) if_said result (read_after into.old rec.now) }
{
    let mut marks = Marks::new(alloc);
    ledata_marked(alloc, rec, into, &mut marks)
}
