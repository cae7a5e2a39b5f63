//! What stands at each ordinal of an entry table that is to be written.

ghost use Rattle.std.specs.Prelude.{◌≡◌, ℕ, IfOk, map};
ghost use Rattle.std.specs.List.{AllByRecursion};
ghost use Rattle.lx_model.specs.ExportTables.{slot_of};
ghost use Rattle.lx_exports.specs.Exports.{ExportFits, numbered, with_ordinals};
ghost use Rattle.lx_exports.specs.Slots.{shown, is_empty, greatest_of, slots_to};

use crate::exports::OutEntry;
use lx_types::{EntryHead, FwdKey, NoMemory};
use std::alloc::Global;

/// What stands at an ordinal: nothing, a place in an object with an offset of 16 or of 32 bits, or a
/// forwarder.
#[derive(Clone, Copy)]
pub enum Slot {
    Empty,
    Narrow { object: u16, flags: u8, offset: u16 },
    Wide { object: u16, flags: u8, offset: u32 },
    Forwarder { flags: u8, import: u16, key: u32 },
}

// What stands at an export's ordinal. The entry is exported, and tells its parameter words.
fn slot_of(export: &OutEntry) -> Slot
    requires { ExportFits export.now }
    ensures { (n : ℕ) → shown result ≡ slot_of (numbered export.now n) }
{
    let flags = 1 + 8 * export.words;
    match export.head {
        EntryHead::At { object, offset } if export.wide => Slot::Wide {
            object: object as u16,
            flags,
            offset,
        },
        EntryHead::At { object, offset } => Slot::Narrow {
            object: object as u16,
            flags,
            offset: offset as u16,
        },
        EntryHead::Gate286 { .. } => unreachable!(),
        EntryHead::Forward { import, key } => {
            let (flags, key) = match key {
                FwdKey::Ordinal(ordinal) => (1, ordinal),
                FwdKey::NameAt(at) => (0, at),
            };
            Slot::Forwarder {
                flags,
                import: import as u16,
                key,
            }
        }
    }
}

fn is_empty(slot: Slot) -> bool
    ensures { result ≡ is_empty slot }
{
    matches!(slot, Slot::Empty)
}

fn greatest(ordinals: &[u16]) -> u16
    ensures { result ≡ greatest_of ordinals.now }
{
    let mut greatest = 0;
    for &ordinal in ordinals {
        greatest = greatest.max(ordinal);
    }
    greatest
}

/// What stands at each number up to the greatest ordinal; 0 is no ordinal. An ordinal stands for the
/// first export that has it.
pub fn slots_of(
    alloc: Global,
    exports: &[OutEntry],
    ordinals: &[u16],
) -> Result<Vec<Slot>, NoMemory>
    requires fit { AllByRecursion ExportFits exports.now }
    ensures { IfOk result (λ found. map shown found.items
        ≡ slots_to (greatest_of ordinals.now) (with_ordinals exports.now ordinals.now)) }
{
    let mut slots = vec![in alloc; Slot::Empty; usize::from(greatest(ordinals)) + 1]?;
    for (export, &ordinal) in exports.iter().zip(ordinals) {
        let at = usize::from(ordinal);
        if is_empty(slots[at]) {
            slots[at] = slot_of(export);
        }
    }
    Ok(slots)
}
