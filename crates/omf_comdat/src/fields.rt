//! The fields of a COMDAT record.

ghost use Rattle.std.specs.Prelude.{◌≡◌, IfOk, IfSome};
ghost use Rattle.std.specs.Option.{option_map};
ghost use Rattle.obj_types.specs.Items.{IsIndex};
ghost use Rattle.omf_fields.specs.Fields.{where_so};
ghost use Rattle.lx_types.specs.Answers.{as_is, Gives, Reads};
ghost use Rattle.omf_model.specs.Comdat.{are_flags as flags_there, has_base as base_there, is_continued as continued, is_selected as selected};
ghost use Rattle.omf_model.specs.ReadComdat.{base_segment_at, base_at, comdat_fields_at, offset_place};
ghost use Rattle.omf_model.specs.ReadAfter.{contents_at};
ghost use Rattle.omf_model.specs.ReadModule.{is_wide};
ghost use Rattle.omf_comdat.specs.Fields.{base_of, comdat_of, Counted};

use lx_types::{NoMemory, count};
use obj_types::{ObjParts, OmfRefusal};
use omf_fields::Fields;
use omf_frame::Rec;
use omf_names::is_debug_segment;

/// How many names, segments and groups came before.
#[derive(Clone, Copy)]
pub struct Have {
    names: u32,
    segs: u32,
    groups: u32,
}

impl Have {
    /// Those of an unfinished module.
    pub fn of(parts: &ObjParts) -> Result<Have, NoMemory>
        ensures { IfOk result (λ have. Counted have parts.now) }
    {
        Ok(Have {
            names: count(parts.names.as_slice().len())?,
            segs: count(parts.module.segs.as_slice().len())?,
            groups: count(parts.module.groups.as_slice().len())?,
        })
    }
}

/// The group and the segment of an explicit allocation.
#[derive(Clone, Copy)]
pub struct Base {
    pub group: u32,
    pub segment: u32,
}

/// The fields of a COMDAT record, and the place of its offset.
#[derive(Clone, Copy)]
pub struct ComdatFields<'a> {
    pub flags: u8,
    pub attributes: u8,
    pub align: u8,
    pub offset_at: usize,
    pub offset: u32,
    pub base: Option<Base>,
    pub name: u32,
    pub bytes: &'a [u8],
}

/// Whether the flags are some that there are, without that of iterated data.
fn are_flags(flags: u8) -> bool
    ensures { result ≡ flags_there flags }
{
    flags < 16 && flags / 2 % 2 != 1
}

/// Whether there are such a selection criterion and such an allocation type.
fn is_selected(attributes: u8) -> bool
    ensures { result ≡ selected attributes }
{
    attributes / 16 <= 3 && attributes % 16 <= 4
}

/// Whether a segment and a group stand there.
pub fn has_base(attributes: u8) -> bool
    ensures { result ≡ base_there attributes }
{
    attributes % 16 == 0
}

/// Whether the record goes on with a COMDAT.
pub fn is_continued(flags: u8) -> bool
    ensures { result ≡ continued flags }
{
    flags % 2 == 1
}

/// The index of the base's segment, which is not 0.
#[tactic(auto, unfolding(omf_model::specs::ReadComdat::base_segment_at))]
fn base_segment(fields: &mut Fields, before: &ObjParts, have: Have) -> Result<u32, OmfRefusal>
    requires { Counted have before.now }
    ensures read { Reads (λ n. n) as_is result (base_segment_at before.now) fields.old fields.new }
    ensures range { IfOk result (IsIndex before.now.module.segs) }
{
    let at = fields.at();
    let index = fields.index()?;
    if index == 0 {
        return Err(OmfRefusal::BadField { at });
    }
    if have.segs < index || is_debug_segment(before.module.segs.as_slice(), index) {
        return Err(OmfRefusal::BadIndex {
            at,
            index,
            have: have.segs,
        });
    }
    Ok(index)
}

/// The base, where the allocation is explicit.
#[tactic(auto, unfolding(omf_model::specs::ReadComdat::base_at))]
fn explicit_base(
    fields: &mut Fields,
    attributes: u8,
    before: &ObjParts,
    have: Have,
) -> Result<Option<Base>, OmfRefusal>
    requires { Counted have before.now }
    ensures read { Reads (option_map base_of) as_is result (where_so (base_there attributes) (base_at before.now)) fields.old fields.new }
    ensures range { IfOk result (λ base. IfSome base (λ b. IsIndex before.now.module.segs b.segment)) }
{
    if !has_base(attributes) {
        return Ok(None);
    }
    let group = fields.index_or_zero(have.groups)?;
    let segment = base_segment(fields, before, have)?;
    Ok(Some(Base { group, segment }))
}

/// The fields of the record after those before it. The type's index is 0.
#[tactic(auto, unfolding(omf_model::specs::ReadComdat::comdat_fields_at))]
pub fn fields_of<'a>(
    rec: &Rec<'a>,
    before: &ObjParts,
    have: Have,
) -> Result<ComdatFields<'a>, OmfRefusal>
    requires { Counted have before.now }
    ensures named { IfOk result (λ d. IsIndex before.now.names d.name) }
    ensures based { IfOk result (λ d. IfSome d.base (λ b. IsIndex before.now.module.segs b.segment)) }
    ensures placed { IfOk result (λ d. d.offset_at ≡ offset_place (contents_at rec.now.at rec.now.body.now)) }
    ensures read { Gives comdat_of as_is result (comdat_fields_at (is_wide rec.now.ty) before.now (contents_at rec.now.at rec.now.body.now)) }
{
    let mut fields = Fields::of(rec);
    let at = fields.at();
    let flags = fields.byte()?;
    if !are_flags(flags) {
        return Err(OmfRefusal::BadField { at });
    }
    let at = fields.at();
    let attributes = fields.byte()?;
    if !is_selected(attributes) {
        return Err(OmfRefusal::BadField { at });
    }
    let at = fields.at();
    let align = fields.byte()?;
    if align > 5 {
        return Err(OmfRefusal::BadField { at });
    }
    let offset_at = fields.at();
    let offset = fields.number(rec.ty % 2 == 1)?;
    let _type = fields.index_or_zero(0)?;
    let base = explicit_base(&mut fields, attributes, before, have)?;
    let name = fields.index_below(have.names)?;
    Ok(ComdatFields {
        flags,
        attributes,
        align,
        offset_at,
        offset,
        base,
        name,
        bytes: fields.rest(),
    })
}
