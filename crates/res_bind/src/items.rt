//! The bytes of the new object, and the resource table that names its parts.

ghost use Rattle.std.specs.Prelude.{◌≡◌, ◌++◌, ◌<◌, ◌^◌, length, replicate, OnOk};
ghost use Rattle.res_model.specs.Placed.{data_from, entries_from, entry_spelling, object_size};

use crate::units::aligned;
use byteorder::{ByteOrder, LittleEndian};
use lx_model::RESOURCE_ENTRY_LEN;
use lx_types::NoMemory;
use res_model::ResItem;

// Appends so many zeros.
#[tactic(auto, using(crate::proofs::Lists::resized))]
fn push_zeros(out: &mut Vec<u8>, count: u64) -> Result<(), NoMemory>
    requires { count < 2 ^ 32 }
    ensures { OnOk result (out.new.items ≡ out.old.items ++ replicate count 0) }
{
    let end = out.len() + count as usize;
    Ok(out.resize(end, 0)?)
}

/// Appends the items, each at the least multiple of 4 after the one before it.
#[tactic(auto, using(crate::proofs::Sizes::data_turn, crate::proofs::Sizes::data_end, crate::proofs::Sizes::size_turn, crate::proofs::Sizes::end_above))]
pub fn push_items(out: &mut Vec<u8>, items: &[ResItem]) -> Result<(), NoMemory>
    requires { object_size items.now < 2 ^ 32 }
    ensures { OnOk result (out.new.items ≡ out.old.items ++ data_from 0 items.now) }
{
    let mut end: u64 = 0;
    for item in items {
        let offset = aligned(end);
        push_zeros(out, offset - end)?;
        let bytes = item.bytes.as_slice();
        out.extend_from_slice(bytes)?;
        end = offset + bytes.len() as u64;
    }
    Ok(())
}

// An entry of the resource table.
fn entry_bytes(item: &ResItem, object: u16, offset: u32) -> [u8; RESOURCE_ENTRY_LEN]
    requires { length item.now.bytes < 2 ^ 32 }
    ensures { result ≡ entry_spelling object (record { item = item.now; offset = offset }) }
{
    let mut bytes = [0; RESOURCE_ENTRY_LEN];
    LittleEndian::write_u16(&mut bytes[..2], item.ty);
    LittleEndian::write_u16(&mut bytes[2..4], item.id);
    LittleEndian::write_u32(&mut bytes[4..8], item.bytes.as_slice().len() as u32);
    LittleEndian::write_u16(&mut bytes[8..10], object);
    LittleEndian::write_u32(&mut bytes[10..], offset);
    bytes
}

/// Appends the resource table of items that stand in an object.
pub fn push_resources(out: &mut Vec<u8>, items: &[ResItem], object: u16) -> Result<(), NoMemory>
    requires { object_size items.now < 2 ^ 32 }
    ensures { OnOk result (out.new.items ≡ out.old.items ++ entries_from object 0 items.now) }
{
    let mut end: u64 = 0;
    for item in items {
        let offset = aligned(end);
        out.extend_from_slice(&entry_bytes(item, object, offset as u32))?;
        end = offset + item.bytes.as_slice().len() as u64;
    }
    Ok(())
}
