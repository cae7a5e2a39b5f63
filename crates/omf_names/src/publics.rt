//! "90h PUBDEF", "B6h LPUBDEF".

ghost use Rattle.std.specs.Prelude.{◌≡◌, ◌⊎◌, ◌<◌, ◌==◌, IfOk, length, if◌then◌else◌};
ghost use Rattle.obj_types.specs.declared.symbol.PubPlace.TheVariants.{In, Const};
ghost use Rattle.omf_model.specs.Begun.{IsBegun};
ghost use Rattle.lx_types.specs.Answers.{as_is, if_said, Gives, Reads};
ghost use Rattle.omf_model.specs.ReadAfter.{read_after};
ghost use Rattle.omf_model.specs.ReadNames.{pub_at};
ghost use Rattle.omf_names.specs.Symbols.{pub_def};
ghost use Rattle.omf_names.specs.Publics.{base_at};

use crate::indices::plain_segment_or_zero;
use lx_types::{Fail, Name, count};
use obj_types::{ObjParts, OmfRefusal, Pub, PubPlace};
use omf_fields::Fields;
use omf_frame::Rec;
use omf_frame::record_type::{LPUBDEF, LPUBDEF_32, PUBDEF, PUBDEF_32};
use std::alloc::Global;

/// A public name and its offset. Its type index is 0.
#[derive(Clone, Copy)]
pub struct PubFields<'a> {
    name: &'a [u8],
    offset: u32,
}

/// The index of the segment that the names of the record are in, 0 for constants. The group and the frame are
/// passed over.
#[tactic(auto, unfolding(crate::specs::Publics::base_at))]
fn base(fields: &mut Fields, before: &ObjParts, groups: u32, segs: u32) -> Result<u32, OmfRefusal>
    requires groups { groups ≡ length before.now.module.groups }
    requires segs { segs ≡ length before.now.module.segs }
    ensures { Reads (λ n. n) as_is result (base_at before.now) fields.old fields.new }
{
    fields.index_or_zero(groups)?;
    let segment = plain_segment_or_zero(fields, before, segs)?;
    fields.word_where(segment == 0)?;
    Ok(segment)
}

/// Where a public name of the record stands.
fn place(seg: u32, offset: u32) -> PubPlace
    ensures { result ≡ (if seg == 0 then Const offset else In seg offset) }
{
    if seg == 0 {
        PubPlace::Const { value: offset }
    } else {
        PubPlace::In { seg, offset }
    }
}

/// The next public name.
#[tactic(auto, unfolding(omf_model::specs::ReadNames::pub_at))]
fn public<'a>(fields: &mut Fields<'a>, wide: bool) -> Result<PubFields<'a>, OmfRefusal>
    ensures read { Reads pub_def as_is result (pub_at wide) fields.old fields.new }
    ensures short { IfOk result (λ d. length d.name.now < 256) }
{
    let name = fields.name()?;
    let offset = fields.number(wide)?;
    fields.index_or_zero(0)?;
    Ok(PubFields { name, offset })
}

/// Adds the public names of a PUBDEF or LPUBDEF record, up to its end. Those of the latter are local, and those
/// without a segment are constants. After a refusal nothing is told of the parts.
pub fn pubdef(alloc: Global, rec: &Rec, into: &mut ObjParts) -> Result<(), Fail<OmfRefusal>>
    requires kind { (rec.now.ty ≡ PUBDEF) ⊎ (rec.now.ty ≡ PUBDEF_32) ⊎ (rec.now.ty ≡ LPUBDEF) ⊎ (rec.now.ty ≡ LPUBDEF_32) }
    requires begun { IsBegun into.old }
    ensures { Gives (λ _. into.new) if_said result (read_after into.old rec.now) }
{
    let local = rec.ty >= LPUBDEF;
    let wide = rec.ty % 2 == 1;
    let groups = count(into.module.groups.as_slice().len())?;
    let segs = count(into.module.segs.as_slice().len())?;
    let mut fields = Fields::of(rec);
    let seg = match base(&mut fields, into, groups, segs) {
        Ok(seg) => seg,
        Err(refusal) => return Err(Fail::Said(refusal)),
    };
    'publics: while !fields.is_empty() {
        let public = match public(&mut fields, wide) {
            Ok(public) => public,
            Err(refusal) => return Err(Fail::Said(refusal)),
        };
        let name = Name::of_short(alloc, public.name)?;
        into.module.pubs.push(Pub {
            name,
            local,
            place: place(seg, public.offset),
        })?;
    }
    Ok(())
}
