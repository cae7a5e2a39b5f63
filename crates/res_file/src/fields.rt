//! The fields of one item.

ghost use Rattle.std.specs.Prelude.{◌≡◌, ◌+◌, ◌<◌, ◌^◌, ◌≤◌, length, IfOk};
ghost use Rattle.lx_types.specs.Answers.{as_is};
ghost use Rattle.lx_model.specs.Judging.{Judged, Judges};
ghost use Rattle.lx_model.specs.Reading.{number_at};
ghost use Rattle.res_model.specs.ItemFields.{fields_fault, item_at, length_at, mark_fault, short_field};

use byteorder::{ByteOrder, LittleEndian};
use res_model::{FIELDS, MARK, ResRefusal};

/// An item whose bytes lie in the file.
#[derive(Clone, Copy)]
pub struct Spelled<'a> {
    pub ty: u16,
    pub id: u16,
    pub flags: u16,
    pub bytes: &'a [u8],
}

// A field of so many bytes, of an item at a place that has these bytes from there on.
fn judge(left: &[u8], at: usize, offset: usize, width: usize) -> Result<(), ResRefusal>
    requires place { at + offset < 2 ^ 64 }
    requires end { offset + width < 2 ^ 64 }
    ensures { Judged as_is result (short_field at left.now offset width) }
{
    if left.len() < offset + width {
        return Err(ResRefusal::Short { at: at + offset });
    }
    Ok(())
}

fn mark(left: &[u8], at: usize, offset: usize) -> Result<(), ResRefusal>
    requires place { at + offset < 2 ^ 64 }
    requires near { offset < 16 }
    ensures { Judged as_is result (mark_fault at left.now offset) }
{
    let Some(byte) = left.get(offset) else {
        return Err(ResRefusal::Short { at: at + offset });
    };
    if *byte != MARK {
        return Err(ResRefusal::BadItem { at: at + offset });
    }
    Ok(())
}

fn word(left: &[u8], at: usize, offset: usize) -> Result<u16, ResRefusal>
    requires place { at + offset < 2 ^ 64 }
    requires near { offset < 16 }
    ensures { Judges as_is result (number_at 2 left.now offset) (short_field at left.now offset 2) }
{
    if left.len() < offset + 2 {
        return Err(ResRefusal::Short { at: at + offset });
    }
    Ok(LittleEndian::read_u16(&left[offset..]))
}

// How many bytes of data there are, after the other fields.
fn data_length(left: &[u8], at: usize) -> Result<usize, ResRefusal>
    requires { at + 8 < 2 ^ 64 }
    ensures read { Judges as_is result (length_at left.now) (short_field at left.now 8 4) }
    ensures small { IfOk result (λ len. len < 2 ^ 32) }
{
    if left.len() < FIELDS {
        return Err(ResRefusal::Short { at: at + 8 });
    }
    Ok(LittleEndian::read_u32(&left[8..]) as usize)
}

/// The item at a place, that has these bytes from there on.
#[tactic(auto, unfolding(res_model::specs::ItemFields::fields_fault))]
pub fn next_item(left: &[u8], at: usize) -> Result<Spelled<'_>, ResRefusal>
    requires { at < 2 ^ 63 }
    ensures judged { Judged as_is result (fields_fault at left.now) }
    ensures there { IfOk result (λ i. FIELDS + length_at left.now ≤ length left.now) }
    ensures item { IfOk result (λ i. record { ty = i.ty; id = i.id; flags = i.flags; bytes = i.bytes.now } ≡ item_at left.now) }
{
    mark(left, at, 0)?;
    let ty = word(left, at, 1)?;
    mark(left, at, 3)?;
    let id = word(left, at, 4)?;
    let flags = word(left, at, 6)?;
    let len = data_length(left, at)?;
    judge(left, at, FIELDS, len)?;
    Ok(Spelled {
        ty,
        id,
        flags,
        bytes: &left[FIELDS..FIELDS + len],
    })
}
