//! Writes the entry table: neighbours of one type, and of one object where the type has one, are
//! joined in bundles of up to 255 ("Entry Table").

ghost use Rattle.std.specs.Prelude.{◌≡◌, ◌++◌, ◌<◌, OnOk, IfOk, length, map, drop};
ghost use Rattle.std.specs.List.{flat_map};
ghost use Rattle.lx_model.specs.Bundles.{bundle_spelling, table_spelling};
ghost use Rattle.lx_model.specs.JoinedEntries.{joins};
ghost use Rattle.lx_exports.specs.Slots.{shown, bundles_of, BeginBundle, entry_bytes, head_bytes};

use crate::slots::Slot;
use lx_model::MAX_ENTRIES;
use lx_types::NoMemory;
use std::alloc::{AllocError, Global};

// Whether two slots may stand in one bundle.
fn joins(one: Slot, other: Slot) -> bool
    ensures { result ≡ joins (shown one) (shown other) }
{
    match (one, other) {
        (Slot::Empty, Slot::Empty) => true,
        (Slot::Narrow { object: a, .. }, Slot::Narrow { object: b, .. }) => a == b,
        (Slot::Wide { object: a, .. }, Slot::Wide { object: b, .. }) => a == b,
        (Slot::Forwarder { .. }, Slot::Forwarder { .. }) => true,
        _ => false,
    }
}

// How many slots, at most 255, stand in one bundle with the first one.
fn joined_len(slots: &[Slot]) -> usize
    requires { 0 < length slots.now }
    ensures { BeginBundle slots.now result }
{
    let first = slots[0];
    let mut len = 1;
    while len < slots.len() && len < MAX_ENTRIES && joins(first, slots[len]) {
        len += 1;
    }
    len
}

// The entry of a slot, where it has one.
fn push_entry(out: &mut Vec<u8>, slot: Slot) -> Result<(), AllocError>
    ensures { OnOk result (out.new.items ≡ out.old.items ++ entry_bytes slot) }
{
    match slot {
        Slot::Empty => return Ok(()),
        Slot::Narrow { flags, .. } | Slot::Wide { flags, .. } | Slot::Forwarder { flags, .. } => {
            out.push(flags)?;
        }
    }
    match slot {
        Slot::Empty => Ok(()),
        Slot::Narrow { offset, .. } => out.extend_from_slice(&offset.to_le_bytes()),
        Slot::Wide { offset, .. } => out.extend_from_slice(&offset.to_le_bytes()),
        Slot::Forwarder { import, key, .. } => {
            out.extend_from_slice(&import.to_le_bytes())?;
            out.extend_from_slice(&key.to_le_bytes())
        }
    }
}

// What stands before the entries of a bundle that begins with this slot: the count, the type, and the object word or
// the reserved word.
fn push_head(out: &mut Vec<u8>, count: u8, first: Slot) -> Result<(), AllocError>
    ensures { OnOk result (out.new.items ≡ out.old.items ++ head_bytes count first) }
{
    let (kind, word) = match first {
        Slot::Empty => return out.extend_from_slice(&[count, 0]),
        Slot::Narrow { object, .. } => (1, object),
        Slot::Wide { object, .. } => (3, object),
        Slot::Forwarder { .. } => (4, 0),
    };
    out.extend_from_slice(&[count, kind])?;
    out.extend_from_slice(&word.to_le_bytes())
}

fn push_entries(out: &mut Vec<u8>, slots: &[Slot]) -> Result<(), AllocError>
    ensures { OnOk result (out.new.items ≡ out.old.items ++ flat_map entry_bytes slots.now) }
{
    for &slot in slots {
        push_entry(out, slot)?;
    }
    Ok(())
}

// The bundle of the first slots, so many.
fn push_bundle(out: &mut Vec<u8>, slots: &[Slot], len: usize) -> Result<(), AllocError>
    requires { BeginBundle slots.now len }
    ensures { OnOk result (out.new.items ++ flat_map bundle_spelling (bundles_of (map shown (drop len slots.now)))
        ≡ out.old.items ++ flat_map bundle_spelling (bundles_of (map shown slots.now))) }
{
    push_head(out, len as u8, slots[0])?;
    push_entries(out, &slots[..len])
}

/// The entry table of slots.
pub fn entry_table(alloc: Global, slots: &[Slot]) -> Result<Vec<u8>, NoMemory>
    ensures { IfOk result (λ bytes. bytes.items ≡ table_spelling (bundles_of (map shown slots.now))) }
{
    let mut out = Vec::new(alloc);
    let mut at = 0;
    while at < slots.len() {
        let left = &slots[at..];
        let len = joined_len(left);
        push_bundle(&mut out, left, len)?;
        at += len;
    }
    out.push(0)?;
    Ok(out)
}
