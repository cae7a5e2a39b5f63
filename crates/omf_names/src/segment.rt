//! "98h SEGDEF".

ghost use Rattle.omf_model.specs.Record.{are_attributes};
ghost use Rattle.std.specs.Prelude.{◌≡◌, ◌⊎◌, ◌≤◌, IfOk, length};
ghost use Rattle.lx_types.specs.Answers.{as_is, if_said, Gives};
ghost use Rattle.omf_model.specs.Begun.{IsBegun};
ghost use Rattle.omf_model.specs.ReadAfter.{read_after, contents_at};
ghost use Rattle.omf_model.specs.Items.{is_debug, seg_of};
ghost use Rattle.omf_model.specs.ReadModule.{is_wide};
ghost use Rattle.omf_model.specs.ReadNames.{segdef_at};
ghost use Rattle.omf_names.specs.Segments.{def_of, segdef_record};

use crate::indices::text;
use lx_types::{Fail, Name, NoMemory, count};
use obj_types::{ObjParts, OmfRefusal, Seg};
use omf_fields::{Fields, said};
use omf_frame::Rec;
use omf_frame::record_type::{SEGDEF, SEGDEF_32};
use std::alloc::Global;

/// The fields of a SEGDEF record. The frame and the offset stand there for the alignment 0.
#[derive(Clone, Copy)]
pub struct SegFields {
    attributes: u8,
    frame: Option<u16>,
    offset: Option<u8>,
    len: u32,
    name: u32,
    class: u32,
    overlay: u32,
}

// Whether there are such an alignment and such a combine type: 6 and 7, and 1 and 3, are not used.
fn are_used(attributes: u8) -> bool
    ensures { result ≡ are_attributes attributes }
{
    let combine = attributes / 4 % 8;
    attributes / 32 <= 5 && combine != 1 && combine != 3
}

#[tactic(auto, unfolding(omf_model::specs::ReadNames::segdef_at))]
// The fields of the record, where `have` names came before.
fn fields_of(rec: &Rec, before: &ObjParts, have: u32) -> Result<SegFields, OmfRefusal>
    requires { have ≡ length before.now.names }
    ensures read { Gives segdef_record as_is result (segdef_at (is_wide rec.now.ty) before.now (contents_at rec.now.at rec.now.body.now)) }
    ensures named { IfOk result (λ d. (1 ≤ d.name) × (d.name ≤ have) × (1 ≤ d.class) × (d.class ≤ have)) }
{
    let wide = rec.ty % 2 == 1;
    let mut fields = Fields::of(rec);
    let at = fields.at();
    let attributes = fields.byte()?;
    if !are_used(attributes) {
        return Err(OmfRefusal::BadField { at });
    }
    let absolute = attributes / 32 == 0;
    let frame = fields.word_where(absolute)?;
    let offset = fields.byte_where(absolute)?;
    let len = fields.number(wide)?;
    // In 99h big with length 0 would be a segment of 4 GiB.
    if wide && attributes / 2 % 2 == 1 && len == 0 {
        return Err(OmfRefusal::BadField { at });
    }
    let name = fields.index_below(have)?;
    let class = fields.index_below(have)?;
    let overlay = fields.index_or_zero(have)?;
    Ok(SegFields {
        attributes,
        frame,
        offset,
        len,
        name,
        class,
        overlay,
    })
}

// Whether a segment of this name and class holds a debugger's symbols or types.
fn has_debug_data(name: &[u8], class: &[u8]) -> bool
    ensures { result ≡ is_debug name.now class.now }
{
    name == b"$$SYMBOLS".as_slice() && class == b"DEBSYM".as_slice()
        || name == b"$$TYPES".as_slice() && class == b"DEBTYP".as_slice()
}

// The segment that the fields define.
fn segment_of(alloc: Global, names: &[Name], d: SegFields) -> Result<Seg, NoMemory>
    requires name { 1 ≤ d.name }
    requires name_there { d.name ≤ length names.now }
    requires class { 1 ≤ d.class }
    requires class_there { d.class ≤ length names.now }
    ensures { IfOk result (λ seg. seg ≡ seg_of names.now (def_of d)) }
{
    let name = text(names, d.name);
    let class = text(names, d.class);
    // Big with length 0 means 65,536 bytes.
    let len = if d.attributes / 2 % 2 == 1 && d.len == 0 {
        65_536
    } else {
        d.len
    };
    Ok(Seg {
        debug: has_debug_data(name, class),
        name: Name::of_short(alloc, name)?,
        class: Name::of_short(alloc, class)?,
        align: d.attributes / 32,
        combine: d.attributes / 4 % 8,
        wide: d.attributes % 2 == 1,
        len,
    })
}

/// Adds the segment that a SEGDEF record defines. After a refusal nothing is told of the parts.
pub fn segdef(alloc: Global, rec: &Rec, into: &mut ObjParts) -> Result<(), Fail<OmfRefusal>>
    requires kind { (rec.now.ty ≡ SEGDEF) ⊎ (rec.now.ty ≡ SEGDEF_32) }
    requires begun { IsBegun into.old }
    ensures { Gives (λ _. into.new) if_said result (read_after into.old rec.now) }
{
    let have = count(into.names.as_slice().len())?;
    let fields = said(fields_of(rec, into, have))?;
    let segment = segment_of(alloc, into.names.as_slice(), fields)?;
    into.module.segs.push(segment)?;
    Ok(())
}
