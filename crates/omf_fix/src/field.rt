//! One field of a FIXUPP record: a THREAD or a FIXUP.

ghost use Rattle.std.specs.Prelude.{◌≡◌};
ghost use Rattle.omf_fix.specs.Field.{then_field, unplaced_at, unplaced, first_at};
ghost use Rattle.omf_fix.specs.Methods.{Counts};
ghost use Rattle.lx_types.specs.Answers.{as_is, if_said, Gives, Reads};
ghost use Rattle.omf_data.specs.Marks.{AreMarks};
ghost use Rattle.omf_model.specs.Begun.{IsBegun};
ghost use Rattle.omf_model.specs.ReadFixups.{is_dropped as dropped, field_at, fixup_at, thread_at};

use crate::fix_data::{FixFields, fix_fields};
use crate::location::{is_location, location};
use crate::place::{FixPlace, place_fixup};
use crate::starts::{FieldStart, Fixupp};
use crate::threads::{set_thread, thread_index};
use lx_types::Fail;
use obj_types::{LastData, ObjParts, OmfRefusal};
use omf_data::Marks;
use omf_fields::{Fields, said};
use std::alloc::Global;

/// The fields of a fixup after its first byte.
#[derive(Clone, Copy)]
pub struct FixupFields {
    low: u8,
    data: FixFields,
}

/// Whether the last data record's data was that of a debug segment.
fn is_dropped(last: &LastData) -> bool
    ensures { result ≡ dropped last.now }
{
    match last {
        LastData::Dropped => true,
        LastData::None | LastData::Straight { .. } | LastData::Blocks { .. } => false,
    }
}

/// The fields of a fixup after its first byte. Of a fixup on a debugger's data the thread and the methods alone are
/// judged.
fn fixup_fields(
    fields: &mut Fields,
    before: &ObjParts,
    start: FieldStart,
) -> Result<FixupFields, OmfRefusal>
    requires { Counts start.fixupp.have before.now }
    ensures { Reads unplaced as_is result (unplaced_at start.fixupp.wide before.now (first_at start)) fields.old fields.new }
{
    let judged = !is_dropped(&before.last);
    if judged && !is_location(start.byte) {
        return Err(OmfRefusal::BadLocation {
            at: start.at,
            loc: location(start.byte),
        });
    }
    if fields.is_empty() {
        return Err(OmfRefusal::Short { at: start.at });
    }
    let low = fields.byte()?;
    let data = fix_fields(fields, start.fixupp.wide, judged, before, start.fixupp.have)?;
    Ok(FixupFields { low, data })
}

/// Reads a FIXUP after its first byte, and adds its fixes.
fn fixup(
    alloc: Global,
    fields: &mut Fields,
    start: FieldStart,
    into: &mut ObjParts,
    marks: &mut Marks,
) -> Result<(), Fail<OmfRefusal>>
    requires begun { IsBegun into.old }
    requires have { Counts start.fixupp.have into.old }
    requires marks { AreMarks marks.old into.old }
    ensures marks { AreMarks marks.new into.old }
    ensures added { Gives (λ _. (into.new, fields.new)) if_said result (then_field into.old (fixup_at start.fixupp.wide into.old (first_at start) fields.old)) }
{
    let FixupFields { low, data } = match fixup_fields(fields, into, start) {
        Ok(read) => read,
        Err(refusal) => return Err(Fail::Said(refusal)),
    };
    if is_dropped(&into.last) {
        return Ok(());
    }
    let place = FixPlace {
        of_record: start.fixupp.at,
        at: start.at,
        high: start.byte,
        low,
    };
    marks.see(into)?;
    place_fixup(alloc, into, marks, place, data)
}

/// Reads a THREAD after its byte, and sets the thread.
fn thread(
    fields: &mut Fields,
    start: FieldStart,
    into: &mut ObjParts,
) -> Result<(), Fail<OmfRefusal>>
    requires begun { IsBegun into.old }
    requires have { Counts start.fixupp.have into.old }
    ensures { Gives (λ _. (into.new, fields.new)) if_said result (then_field into.old (thread_at into.old (first_at start) fields.old)) }
{
    let index = said(thread_index(fields, into, start))?;
    set_thread(&mut into.threads, start.byte, index);
    Ok(())
}

/// Reads the next field of a FIXUPP record, and adds what it says.
#[tactic(auto, unfolding(omf_model::specs::ReadFixups::field_at))]
pub fn next_field(
    alloc: Global,
    fields: &mut Fields,
    fixupp: Fixupp,
    into: &mut ObjParts,
    marks: &mut Marks,
) -> Result<(), Fail<OmfRefusal>>
    requires begun { IsBegun into.old }
    requires have { Counts fixupp.have into.old }
    requires marks { AreMarks marks.old into.old }
    ensures marks { AreMarks marks.new into.old }
    ensures added { Gives (λ _. (into.new, fields.new)) if_said result (then_field into.old (field_at fixupp.wide into.old fixupp.at fields.old)) }
{
    let at = fields.at();
    let byte = said(fields.byte())?;
    let start = FieldStart { fixupp, at, byte };
    if byte < 0x80 {
        thread(fields, start, into)
    } else {
        fixup(alloc, fields, start, into, marks)
    }
}
