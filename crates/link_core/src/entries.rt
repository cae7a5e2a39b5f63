//! What the entry table and the name tables have of the exports ("Entry Table").

ghost use Rattle.std.specs.Prelude.{◌≡◌, ◌++◌, IfOk, OnOk, List, ℕ, map, length, option_to_list, slice_get};
ghost use Rattle.std.specs.Option.{option_map_or};
ghost use Rattle.obj_types.specs.Items.{item};
ghost use Rattle.obj_types.specs.declared.symbol.Imp.{Imp};
ghost use Rattle.link_model.specs.ImportTables.{procs_in, with_offset};
ghost use Rattle.image_model.specs.Exported.{forwarder_to};
ghost use Rattle.lx_write.specs.Offsets.{NameIsThere};
ghost use Rattle.link_fix.specs.Shown.{target_shown};
ghost use Rattle.link_fix.specs.Tables.{ArePairs};
ghost use Rattle.link_core.specs.Exports.{offsets_of, forward_among, head_among, wide_among, entry_with, entry_to, entry_in, entries_in};

use crate::exports::lead_of;
use link_fix::{ImportTables, Target};
use link_model::LaidObject;
use link_types::{Layout, Places, Symbols};
use lx_exports::OutEntry;
use lx_types::{EntryHead, FixTarget, FwdKey, NoMemory, OBJECT_BIG, Seq};
use lx_write::name_offsets;
use obj_types::{Exp, Imp};
use std::alloc::Global;

fn offset_at(offsets: &[u32], place: u32) -> Option<u32>
    ensures { result ≡ slice_get offsets.now place }
{
    offsets.get(place as usize).copied()
}

// The entry of a forwarder that names its entry point so, by the offsets of the names of procedures.
fn forwarder(target: FixTarget, offsets: &[u32]) -> Option<EntryHead>
    ensures { (names : List (List ℕ)) → offsets.now ≡ offsets_of names → NameIsThere (length names) target
        → result ≡ forwarder_to (with_offset names target) }
{
    match target {
        FixTarget::Ordinal { import, ordinal } => Some(EntryHead::Forward {
            import,
            key: FwdKey::Ordinal(ordinal),
        }),
        FixTarget::Named { import, name_at } => match offset_at(offsets, name_at) {
            None => None,
            Some(offset) => Some(EntryHead::Forward {
                import,
                key: FwdKey::NameAt(offset),
            }),
        },
        FixTarget::Internal {
            object: _,
            offset: _,
        }
        | FixTarget::Own { ordinal: _ } => None,
    }
}

/// What the entries of a link's exports depend on.
#[derive(Clone, Copy)]
pub struct EntryContext<'a> {
    /// Where segments, communals and groups stand.
    places: &'a Places,
    /// What names mean.
    syms: &'a Symbols,
    objects: &'a [LaidObject],
    tables: &'a ImportTables,
    /// The offset of each name of a procedure in its table.
    offsets: &'a [u32],
}

// The entry of a forwarder to an import pair.
fn forward_of(
    alloc: Global,
    context: &EntryContext<'_>,
    pair: &Imp,
) -> Result<Option<EntryHead>, NoMemory>
    ensures { IfOk result (λ head. (pairs : List Imp) → ArePairs context.now.tables.now pairs → context.now.offsets.now ≡ offsets_of (procs_in pairs)
        → head ≡ forward_among pairs pair.now) }
{
    match context.tables.target_of(alloc, pair)? {
        None => Ok(None),
        Some(target) => Ok(forwarder(target, context.offsets)),
    }
}

// The entry of an export that leads here.
fn head_of(
    alloc: Global,
    context: &EntryContext<'_>,
    target: Target,
) -> Result<Option<EntryHead>, NoMemory>
    ensures { IfOk result (λ head. (pairs : List Imp) → ArePairs context.now.tables.now pairs → context.now.offsets.now ≡ offsets_of (procs_in pairs)
        → head ≡ head_among context.now.syms.now.imports pairs (target_shown target)) }
{
    match target {
        Target::Internal { object, offset } => Ok(Some(EntryHead::At { object, offset })),
        Target::Constant { value: _ } => Ok(None),
        Target::Entry { slot } => match context.syms.imports().get(slot as usize) {
            None => Ok(None),
            Some(pair) => forward_of(alloc, context, pair),
        },
    }
}

// The flags of an object.
fn flags_at(objects: &[LaidObject], number: u32) -> u32
    ensures { result ≡ option_map_or (λ x. x.flags) (item objects.now number) 0 }
{
    match number.checked_sub(1) {
        None => 0,
        Some(place) => match objects.get(place as usize) {
            None => 0,
            Some(object) => object.flags,
        },
    }
}

// Whether the offset of an entry that leads here has 32 bits.
fn is_wide(objects: &[LaidObject], target: Target) -> bool
    ensures { result ≡ wide_among objects.now (target_shown target) }
{
    match target {
        Target::Internal { object, offset } => {
            flags_at(objects, object) & OBJECT_BIG != 0 || offset >= 0x1_0000
        }
        Target::Constant { value: _ } | Target::Entry { slot: _ } => false,
    }
}

// The entry of an export, with what it says of where it leads.
fn entry_of(
    alloc: Global,
    objects: &[LaidObject],
    export: &Exp,
    target: Target,
    head: EntryHead,
) -> Result<OutEntry, NoMemory>
    ensures { IfOk result (λ entry. entry ≡ entry_with objects.now export.now (target_shown target) head) }
{
    Ok(OutEntry {
        name: export.name.copied(alloc)?,
        ordinal: export.ordinal,
        resident: export.resident,
        words: export.words,
        head,
        wide: is_wide(objects, target),
    })
}

// Adds the entry of an export that leads here.
fn add_led(
    alloc: Global,
    entries: &mut Vec<OutEntry>,
    context: &EntryContext<'_>,
    export: &Exp,
    target: Target,
) -> Result<(), NoMemory>
    ensures { OnOk result ((pairs : List Imp) → ArePairs context.now.tables.now pairs → context.now.offsets.now ≡ offsets_of (procs_in pairs)
        → entries.new.items ≡ entries.old.items
        ++ option_to_list (entry_to context.now.syms.now.imports pairs context.now.objects.now export.now (target_shown target))) }
{
    if let Some(head) = head_of(alloc, context, target)? {
        entries.push(entry_of(alloc, context.objects, export, target, head)?)?;
    }
    Ok(())
}

// Adds the entry of an export.
fn add_entry(
    alloc: Global,
    entries: &mut Vec<OutEntry>,
    context: &EntryContext<'_>,
    export: &Exp,
) -> Result<(), NoMemory>
    ensures { OnOk result ((pairs : List Imp) → ArePairs context.now.tables.now pairs → context.now.offsets.now ≡ offsets_of (procs_in pairs)
        → entries.new.items ≡ entries.old.items
        ++ option_to_list (entry_in context.now.places.now context.now.syms.now pairs context.now.objects.now export.now)) }
{
    if let Some(target) = lead_of(context.places, context.syms, export) {
        add_led(alloc, entries, context, export, target)?;
    }
    Ok(())
}

// The entries of these exports, in order.
fn entries_by(
    alloc: Global,
    context: &EntryContext<'_>,
    exports: &[&Exp],
) -> Result<Vec<OutEntry>, NoMemory>
    ensures { IfOk result (λ entries. (pairs : List Imp) → ArePairs context.now.tables.now pairs → context.now.offsets.now ≡ offsets_of (procs_in pairs)
        → entries.items ≡ entries_in context.now.places.now context.now.syms.now pairs context.now.objects.now (map (λ x. x.now) exports.now)) }
{
    let mut entries = Vec::new(alloc);
    for export in exports {
        add_entry(alloc, &mut entries, context, export)?;
    }
    Ok(entries)
}

/// The entries of these exports, in order, where these are the import tables of a link that has a layout.
pub fn entries_of(
    alloc: Global,
    layout: &Layout,
    syms: &Symbols,
    tables: &ImportTables,
    exports: &[&Exp],
) -> Result<Vec<OutEntry>, NoMemory>
    ensures { IfOk result (λ entries. (pairs : List Imp) → ArePairs tables.now pairs
        → entries.items ≡ entries_in layout.now.places syms.now pairs layout.now.objects (map (λ x. x.now) exports.now)) }
{
    let offsets = name_offsets(alloc, tables.procs())?;
    let context = EntryContext {
        places: &layout.places,
        syms,
        objects: layout.objects(),
        tables,
        offsets: offsets.as_slice(),
    };
    entries_by(alloc, &context, exports)
}
