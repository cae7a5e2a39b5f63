//! Writes the tables of a module's exports ("Entry Table", "Resident or Non-resident Name Table
//! Entry").

ghost use Rattle.std.specs.Prelude.{◌≡◌, ◌<◌, ℕ, Some, IfOk, length};
ghost use Rattle.std.specs.List.{AllByRecursion};
ghost use Rattle.lx_types.specs.Answers.{Answers};
ghost use Rattle.lx_exports.specs.Exports.{ExportFits, export_refusal};
ghost use Rattle.lx_exports.specs.Writing.{AreTablesOf, HeadIsThere, AreReadAgain, HeadHasRange, HasRange};

use crate::bundle_writing::entry_table;
use crate::exports::{OutEntry, Tables};
use crate::name_writing::{check_names, other_names, resident_names};
use crate::ordinals::ordinals_of;
use crate::slots::slots_of;
use link_model::EntryRefusal;
use lx_types::{EntryHead, Fail, FwdKey, Name, Seq};
use std::alloc::Global;

// What the types of a head say.
fn head_range(head: EntryHead)
    ensures { HeadHasRange head }
{
    match head {
        EntryHead::At { offset, .. } | EntryHead::Gate286 { offset, .. } => {
            let _offset = offset;
        }
        EntryHead::Forward { key, .. } => match key {
            FwdKey::Ordinal(number) | FwdKey::NameAt(number) => {
                let _number = number;
            }
        },
    }
}

// What the types of an export say.
fn export_range(export: &OutEntry)
    ensures { HasRange export.now }
{
    let _name = export.name.bytes();
    head_range(export.head);
}

// What the types of all exports say.
fn export_ranges(exports: &[OutEntry])
    ensures { AllByRecursion HasRange exports.now }
{
    for export in exports {
        export_range(export);
    }
}

fn tables_of(
    alloc: Global,
    name: &Name,
    about: &Name,
    exports: &[OutEntry],
) -> Result<Tables, Fail<EntryRefusal>>
    requires fit { AllByRecursion ExportFits exports.now }
    ensures { Answers result
        (λ tables. AreTablesOf name.now about.now exports.now tables)
        (λ refusal. export_refusal exports.now ≡ Some refusal) }
{
    let ordinals = ordinals_of(alloc, exports)?;
    check_names(alloc, exports)?;
    let numbers = ordinals.as_slice();
    let slots = slots_of(alloc, exports, numbers)?;
    let resident = resident_names(alloc, name, exports, numbers)?;
    let others = other_names(alloc, name, about, exports, numbers)?;
    let entries = entry_table(alloc, &slots[1..])?;
    Ok(Tables {
        resident: Seq::from_vec(resident),
        entries: Seq::from_vec(entries),
        others: Seq::from_vec(others),
        ordinals,
    })
}

/// The tables of a module with this name, this description and these exports. The module's name and
/// the exports' names are not empty, no head is a call gate, words are at most 31, object and import
/// numbers are from 1 to 65,535, and an export whose offset is over 65,535 is wide.
///
/// `Ordinal` where an export asks for the ordinal 0 or for one that an earlier export asks for, or
/// where the least free ordinal passes 65,535; else `NameTwice` where an export has the name of an
/// earlier one.
pub fn write_tables(
    alloc: Global,
    name: &Name,
    about: &Name,
    exports: &[OutEntry],
) -> Result<Tables, Fail<EntryRefusal>>
    requires named { 0 < length name.now }
    requires fit { AllByRecursion ExportFits exports.now }
    ensures written { Answers result
        (λ tables. AreTablesOf name.now about.now exports.now tables)
        (λ refusal. export_refusal exports.now ≡ Some refusal) }
    // They are read again, where the objects and the import modules of the exports are there.
    ensures read { IfOk result (λ tables. (objects imports : ℕ)
        → AllByRecursion (λ x. HeadIsThere objects imports x.head) exports.now
        → AreReadAgain objects imports name.now about.now exports.now tables) }
{
    let _name = name.bytes();
    let _about = about.bytes();
    export_ranges(exports);
    tables_of(alloc, name, about, exports)
}
