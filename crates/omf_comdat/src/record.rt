//! "C2h COMDAT".

ghost use Rattle.std.specs.Prelude.{◌≡◌, ◌+◌, ◌⊎◌, ◌≤◌, IfOk, IfSome, OnOk, length};
ghost use Rattle.lx_types.specs.Answers.{if_said, Gives};
ghost use Rattle.obj_types.specs.Items.{IsIndex};
ghost use Rattle.omf_model.specs.Add.{add_comdat};
ghost use Rattle.omf_model.specs.Begun.{IsBegun};
ghost use Rattle.omf_model.specs.Comdat.{is_continued as continued};
ghost use Rattle.omf_model.specs.Items.{data_so_far};
ghost use Rattle.omf_model.specs.ReadAfter.{read_after};
ghost use Rattle.omf_model.specs.ReadComdat.{judge_comdat};
ghost use Rattle.omf_data.specs.Marks.{AreMarks, HaveAll};
ghost use Rattle.omf_comdat.specs.Fields.{comdat_of};
ghost use Rattle.omf_comdat.specs.Turns.{IsTurn, with_begun, with_data};

use crate::fields::{ComdatFields, Have, fields_of, is_continued};
use crate::segments::begun;
use lx_types::{Bytes, Fail, Name, NoMemory, count};
use obj_types::{COMDAT_BASE, LastData, MAX_DATA, ObjParts, OmfRefusal, Piece, Pub, PubPlace};
use omf_data::Marks;
use omf_fields::said;
use omf_frame::Rec;
use omf_frame::record_type::{COMDAT, COMDAT_32};
use omf_names::text;
use std::alloc::Global;

/// The number of the segment of the COMDAT at a place.
fn number_at(place: usize) -> Result<u32, NoMemory>
    ensures { IfOk result (λ number. number ≡ COMDAT_BASE + 1 + place) }
{
    match count(place)?.checked_add(COMDAT_BASE + 1) {
        Some(number) => Ok(number),
        None => Err(NoMemory),
    }
}

/// Where a record's data goes: the number of its segment, and whether the COMDAT has begun.
#[derive(Clone, Copy)]
struct Turn {
    number: u32,
    has_begun: bool,
}

/// That of a record with these fields.
fn turn_of(
    alloc: Global,
    before: &ObjParts,
    marks: &mut Marks,
    d: &ComdatFields,
) -> Result<Turn, NoMemory>
    requires named { IsIndex before.now.names d.now.name }
    requires marks { HaveAll marks.old before.now }
    ensures turn { IfOk result (IsTurn before.now (comdat_of d.now)) }
    ensures marks { OnOk result (HaveAll marks.new before.now) }
{
    let name = text(before.names.as_slice(), d.name);
    let place = marks.place_of(alloc, before, name)?;
    let number = number_at(place)?;
    Ok(Turn {
        number,
        has_begun: place < before.comdats.as_slice().len(),
    })
}

/// Judges a record at a place whose fields are good: it begins a COMDAT or goes on with one, and its data is within the
/// limit of a module's data and on no location of an earlier fixup.
#[tactic(auto, unfolding(omf_model::specs::ReadComdat::judge_comdat))]
fn judge(
    before: &ObjParts,
    marks: &mut Marks,
    at: usize,
    turn: Turn,
    d: &ComdatFields,
) -> Result<(), Fail<OmfRefusal>>
    requires marks { HaveAll marks.old before.now }
    requires turn { IsTurn before.now (comdat_of d.now) turn }
    requires limit { data_so_far before.now ≤ MAX_DATA }
    ensures judged { Gives (λ u. u) if_said result (judge_comdat before.now at d.now.offset_at (comdat_of d.now)) }
    ensures marks { HaveAll marks.new before.now }
    ensures in_turn { OnOk result (turn.has_begun ≡ continued d.now.flags) }
    ensures fits { OnOk result (d.now.offset + length d.now.bytes.now ≤ MAX_DATA) }
{
    if is_continued(d.flags) != turn.has_begun {
        return Err(Fail::Said(OmfRefusal::BadField { at }));
    }
    let offset_at = d.offset_at;
    let len = d.bytes.len();
    if d.offset as usize + len > MAX_DATA as usize {
        return Err(Fail::Said(OmfRefusal::DataRange { at: offset_at }));
    }
    if marks.bytes() as usize + len > MAX_DATA as usize {
        return Err(Fail::Said(OmfRefusal::TooMany { at }));
    }
    let on_fix = marks.is_on_fix(before, turn.number, d.offset, len as u32)?;
    if on_fix {
        return Err(Fail::Said(OmfRefusal::DataOverFix { at: offset_at }));
    }
    Ok(())
}

/// Adds the COMDAT that a record begins, with its public.
fn begin(alloc: Global, into: &mut ObjParts, number: u32, d: &ComdatFields) -> Result<(), NoMemory>
    requires named { IsIndex into.old.names d.now.name }
    requires based { IfSome d.now.base (λ b. IsIndex into.old.module.segs b.segment) }
    ensures { OnOk result (into.new ≡ with_begun into.old number (comdat_of d.now)) }
{
    let name = text(into.names.as_slice(), d.name);
    let public = Pub {
        name: Name::of_short(alloc, name)?,
        local: d.flags / 4 % 2 == 1,
        place: PubPlace::In {
            seg: number,
            offset: 0,
        },
    };
    let own = begun(alloc, into, name, d)?;
    into.module.pubs.push(public)?;
    into.comdats.push(own)
}

/// Adds data of the segment of a number.
fn add_data(
    alloc: Global,
    into: &mut ObjParts,
    number: u32,
    d: &ComdatFields,
) -> Result<(), NoMemory>
    requires fits { d.now.offset + length d.now.bytes.now ≤ MAX_DATA }
    ensures { OnOk result (into.new ≡ with_data into.old number (comdat_of d.now)) }
{
    let len = d.bytes.len() as u32;
    let bytes = Bytes::from_vec(Vec::from_slice(alloc, d.bytes)?);
    into.module.pieces.push(Piece {
        seg: number,
        offset: d.offset,
        bytes,
    })?;
    into.last = LastData::Straight {
        seg: number,
        offset: d.offset,
        len,
    };
    Ok(())
}

/// Adds the data of a record that is good, and before it the COMDAT that the record begins.
fn add(alloc: Global, into: &mut ObjParts, turn: Turn, d: &ComdatFields) -> Result<(), NoMemory>
    requires turn { IsTurn into.old (comdat_of d.now) turn }
    requires in_turn { turn.has_begun ≡ continued d.now.flags }
    requires fits { d.now.offset + length d.now.bytes.now ≤ MAX_DATA }
    requires named { IsIndex into.old.names d.now.name }
    requires based { IfSome d.now.base (λ b. IsIndex into.old.module.segs b.segment) }
    ensures { OnOk result (into.new ≡ add_comdat into.old (comdat_of d.now)) }
{
    if turn.has_begun {
        return add_data(alloc, into, turn.number, d);
    }
    begin(alloc, into, turn.number, d)?;
    add_data(alloc, into, turn.number, d)
}

/// Adds the data of a COMDAT record to the COMDAT of its name, which later fixups refer to, and begins the COMDAT where
/// the record is no continuation. After a refusal nothing is told of the parts.
pub fn comdat_marked(
    alloc: Global,
    rec: &Rec,
    into: &mut ObjParts,
    marks: &mut Marks,
) -> Result<(), Fail<OmfRefusal>>
    requires kind { (rec.now.ty ≡ COMDAT) ⊎ (rec.now.ty ≡ COMDAT_32) }
    requires begun { IsBegun into.old }
    requires marks { AreMarks marks.old into.old }
    ensures read { Gives (λ _. into.new) if_said result (read_after into.old rec.now) }
    ensures marks { OnOk result (AreMarks marks.new into.new) }
{
    marks.see(into)?;
    let have = Have::of(into)?;
    let d = said(fields_of(rec, into, have))?;
    let turn = turn_of(alloc, into, marks, &d)?;
    judge(into, marks, rec.at, turn, &d)?;
    add(alloc, into, turn, &d)?;
    Ok(())
}
