//! "A2h LIDATA".

ghost use Rattle.std.specs.Prelude.{◌≡◌, ◌⊎◌, ◌≤◌, IfOk, OnOk, length};
ghost use Rattle.obj_types.specs.Items.{IsIndex};
ghost use Rattle.obj_types.specs.declared.limits.TheConstants.{MAX_DATA};
ghost use Rattle.lx_types.specs.Answers.{if_said, Gives};
ghost use Rattle.omf_model.specs.Begun.{IsBegun};
ghost use Rattle.omf_model.specs.ReadAfter.{read_after, contents_at};
ghost use Rattle.omf_model.specs.Items.{data_so_far};
ghost use Rattle.omf_model.specs.ReadData.{lidata_at};
ghost use Rattle.omf_model.specs.ReadModule.{is_wide};
ghost use Rattle.omf_data.specs.Marks.{AreMarks, HaveAll};
ghost use Rattle.omf_data.specs.Data.{lidata_record};
ghost use Rattle.omf_data.specs.Expanding.{SpellsBlocks};

use crate::expand::expanded;
use crate::marks::Marks;
use crate::measure::measured;
use crate::place::{Place, judge, segment};
use lx_types::{Bytes, Fail, count};
use obj_types::{LastData, ObjParts, OmfRefusal, Piece};
use omf_fields::{Fields, said};
use omf_frame::Rec;
use omf_frame::record_type::{LIDATA, LIDATA_32};
use std::alloc::Global;

/// The fields of an LIDATA record: its blocks are not expanded, and `len` is the length of their data.
#[derive(Clone, Copy)]
pub struct Iterated<'a> {
    place: Place,
    wide: bool,
    body: &'a [u8],
    len: u32,
}

// The fields of the record, which are good after those of `have` segments.
#[tactic(auto, unfolding(omf_model::specs::ReadData::lidata_at))]
fn fields_of<'a>(
    rec: &Rec<'a>,
    before: &ObjParts,
    marks: &mut Marks,
    have: u32,
) -> Result<Iterated<'a>, Fail<OmfRefusal>>
    requires marks { HaveAll marks.old before.now }
    requires have { have ≡ length before.now.module.segs }
    requires limit { data_so_far before.now ≤ MAX_DATA }
    ensures read { Gives lidata_record if_said result (lidata_at (is_wide rec.now.ty) before.now rec.now.at (contents_at rec.now.at rec.now.body.now)) }
    ensures range { IfOk result (λ d. IsIndex before.now.module.segs d.place.seg) }
    ensures spelled { IfOk result (λ d. SpellsBlocks d.wide d.body.now) }
    ensures marks { HaveAll marks.new before.now }
{
    let wide = rec.ty % 2 == 1;
    let mut fields = Fields::of(rec);
    let seg = said(fields.index_below(have))?;
    let offset_at = fields.at();
    let offset = said(fields.number(wide))?;
    let body = fields.rest();
    let len = said(measured(&mut fields, wide))?;
    let place = Place {
        seg,
        offset,
        offset_at,
    };
    judge(before, marks, rec.at, place, len as usize)?;
    Ok(Iterated {
        place,
        wide,
        body,
        len,
    })
}

/// Adds the data of an LIDATA record as one piece, expanded; later fixups refer to its blocks. Data of a debug
/// segment is dropped. Its length is measured and judged before it is expanded. The marks see what they have not seen
/// of the parts before. After a refusal nothing is told of the parts.
pub fn lidata_marked(
    alloc: Global,
    rec: &Rec,
    into: &mut ObjParts,
    marks: &mut Marks,
) -> Result<(), Fail<OmfRefusal>>
    requires kind { (rec.now.ty ≡ LIDATA) ⊎ (rec.now.ty ≡ LIDATA_32) }
    requires begun { IsBegun into.old }
    requires marks { AreMarks marks.old into.old }
    ensures read { Gives (λ _. into.new) if_said result (read_after into.old rec.now) }
    ensures marks { OnOk result (AreMarks marks.new into.new) }
{
    marks.see(into)?;
    let have = count(into.module.segs.as_slice().len())?;
    let fields = fields_of(rec, into, marks, have)?;
    let Place { seg, offset, .. } = fields.place;
    if segment(into, seg).debug {
        into.last = LastData::Dropped;
        return Ok(());
    }
    let wide = fields.wide;
    let data = expanded(alloc, wide, fields.body, fields.len)?;
    let bytes = Bytes::from_vec(data);
    let body = Bytes::from_vec(Vec::from_slice(alloc, fields.body)?);
    into.module.pieces.push(Piece { seg, offset, bytes })?;
    into.last = LastData::Blocks {
        seg,
        offset,
        wide,
        body,
    };
    Ok(())
}

/// Adds the data of an LIDATA record ("A2h LIDATA") to parts of which no marks were kept. After a refusal nothing is
/// told of the parts.
pub fn lidata(alloc: Global, rec: &Rec, into: &mut ObjParts) -> Result<(), Fail<OmfRefusal>>
    requires kind { (rec.now.ty ≡ LIDATA) ⊎ (rec.now.ty ≡ LIDATA_32) }
    requires begun { IsBegun into.old }
    ensures { Gives (λ _. into.new) if_said result (read_after into.old rec.now) }
{
    let mut marks = Marks::new(alloc);
    lidata_marked(alloc, rec, into, &mut marks)
}
