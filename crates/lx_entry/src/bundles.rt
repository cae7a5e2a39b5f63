//! The entry table: bundles of entries with consecutive ordinals ("Entry Table").

ghost use Rattle.std.specs.Prelude.{◌≡◌, ◌+◌, ◌≤◌, ◌<◌, ◌^◌, length, IfOk, IfSome};
ghost use Rattle.lx_types.specs.declared.refusal.LxKind.TheVariants as kinds;
ghost use Rattle.lx_types.specs.Answers.{Reads, Gives, told_as, if_said_as};
ghost use Rattle.lx_model.specs.EntryTable.{at_entry, gate_entry, forward_entry, bundle_entries, bundle_of_type, bundle_at, entries_in};
ghost use Rattle.lx_entry.specs.Refusals.{refusal};
ghost use Rattle.lx_entry.specs.Bundles.{entry_at, object_at, form_at, head_at, Adds, AddsBundle};

use crate::refusal::TableRefusal;
use lx_fields::Fields;
use lx_model::MAX_ORDINAL;
use lx_types::{EntryHead, Fail, FwdKey, Seq};
use std::alloc::Global;

/// Entries, each with its ordinal.
pub type Entries = Seq<(u32, EntryHead)>;

/// How the entries of a bundle are written: with an offset of 16 bits, with a gate word too, with
/// an offset of 32 bits, or as forwarders.
#[derive(Clone, Copy)]
pub enum Form {
    Narrow { object: u32 },
    Gate { object: u32 },
    Wide { object: u32 },
    Forwarder,
}

/// What stands before the entries of a bundle: how many ordinals it has, and how its entries are
/// written.
#[derive(Clone, Copy)]
pub struct Head {
    pub count: u8,
    pub form: Option<Form>,
}

// ---- entries

#[tactic(auto, unfolding(lx_model::specs::EntryTable::at_entry))]
fn narrow_entry(fields: &mut Fields, object: u32) -> Result<EntryHead, TableRefusal>
    ensures { Reads (λ head. head) (told_as (refusal kinds.EntryTable)) result (at_entry 2 object)
        fields.old fields.new }
{
    let _flags = fields.byte()?;
    let offset = u32::from(fields.word()?);
    Ok(EntryHead::At { object, offset })
}

#[tactic(auto, unfolding(lx_model::specs::EntryTable::gate_entry))]
fn gate_entry(fields: &mut Fields, object: u32) -> Result<EntryHead, TableRefusal>
    ensures { Reads (λ head. head) (told_as (refusal kinds.EntryTable)) result (gate_entry object)
        fields.old fields.new }
{
    let _flags = fields.byte()?;
    let offset = u32::from(fields.word()?);
    let _gate = fields.word()?;
    Ok(EntryHead::Gate286 { object, offset })
}

#[tactic(auto, unfolding(lx_model::specs::EntryTable::at_entry))]
fn wide_entry(fields: &mut Fields, object: u32) -> Result<EntryHead, TableRefusal>
    ensures { Reads (λ head. head) (told_as (refusal kinds.EntryTable)) result (at_entry 4 object)
        fields.old fields.new }
{
    let _flags = fields.byte()?;
    let offset = fields.doubleword()?;
    Ok(EntryHead::At { object, offset })
}

#[tactic(auto, unfolding(lx_model::specs::EntryTable::forward_entry))]
fn forward_entry(fields: &mut Fields, imports: u32) -> Result<EntryHead, TableRefusal>
    ensures { Reads (λ head. head) (told_as (refusal kinds.EntryTable)) result (forward_entry imports)
        fields.old fields.new }
{
    let at = fields.at();
    let flags = fields.byte()?;
    let import = u32::from(fields.word()?);
    if import == 0 || imports < import {
        return Err(TableRefusal { at, short: false });
    }
    let number = fields.doubleword()?;
    let key = if flags % 2 == 1 {
        FwdKey::Ordinal(number)
    } else {
        FwdKey::NameAt(number)
    };
    Ok(EntryHead::Forward { import, key })
}

fn entry(fields: &mut Fields, form: Form, imports: u32) -> Result<EntryHead, TableRefusal>
    ensures { Reads (λ head. head) (told_as (refusal kinds.EntryTable)) result (entry_at form imports)
        fields.old fields.new }
{
    match form {
        Form::Narrow { object } => narrow_entry(fields, object),
        Form::Gate { object } => gate_entry(fields, object),
        Form::Wide { object } => wide_entry(fields, object),
        Form::Forwarder => forward_entry(fields, imports),
    }
}

// Adds `count` entries, with the ordinals from `ordinal` on.
fn add_entries(
    fields: &mut Fields,
    form: Form,
    imports: u32,
    count: u8,
    ordinal: u32,
    into: &mut Entries,
) -> Result<(), Fail<TableRefusal>>
    requires { ordinal + count ≤ 65536 }
    ensures { Adds result (bundle_entries count ordinal (entry_at form imports) fields.old)
        into.old into.new fields.new }
{
    for i in 0..count {
        let head = entry(fields, form, imports)?;
        into.push((ordinal + u32::from(i), head))?;
    }
    Ok(())
}

// ---- bundles

// The number of an object that is there, in a bundle that begins at a place.
fn object_number(fields: &mut Fields, objects: u32, bundle: u32) -> Result<u32, TableRefusal>
    ensures { Reads (λ object. object) (told_as (refusal kinds.EntryTable)) result (object_at objects bundle)
        fields.old fields.new }
{
    let object = u32::from(fields.word()?);
    if object == 0 || objects < object {
        return Err(TableRefusal {
            at: bundle,
            short: false,
        });
    }
    Ok(object)
}

// How the entries of a bundle of a type are written; a bundle of type 0 has none.
fn form_of(
    fields: &mut Fields,
    kind: u8,
    objects: u32,
    bundle: u32,
) -> Result<Option<Form>, TableRefusal>
    ensures { Reads (λ form. form) (told_as (refusal kinds.EntryTable)) result (form_at kind objects bundle)
        fields.old fields.new }
{
    match kind {
        0 => Ok(None),
        1 => {
            let object = object_number(fields, objects, bundle)?;
            Ok(Some(Form::Narrow { object }))
        }
        2 => {
            let object = object_number(fields, objects, bundle)?;
            Ok(Some(Form::Gate { object }))
        }
        3 => {
            let object = object_number(fields, objects, bundle)?;
            Ok(Some(Form::Wide { object }))
        }
        4 => {
            let _reserved = fields.word()?;
            Ok(Some(Form::Forwarder))
        }
        _ => Err(TableRefusal {
            at: bundle,
            short: false,
        }),
    }
}

// What stands before the entries of the next bundle, after the ordinal `last`. There is nothing
// at the table's end.
fn head_of(fields: &mut Fields, objects: u32, last: u32) -> Result<Option<Head>, TableRefusal>
    ensures read { Reads (λ head. head) (told_as (refusal kinds.EntryTable)) result (head_at objects last)
        fields.old fields.new }
    ensures room { IfOk result (λ head. IfSome head (λ h. last + h.count ≤ MAX_ORDINAL)) }
{
    let at = fields.at();
    let count = fields.byte()?;
    if count == 0 {
        return Ok(None);
    }
    if u32::from(count) > MAX_ORDINAL.saturating_sub(last) {
        return Err(TableRefusal { at, short: false });
    }
    let kind = fields.byte()?;
    let form = form_of(fields, kind, objects, at)?;
    Ok(Some(Head { count, form }))
}

// Adds the entries of the next bundle, after the ordinal `last`, and tells its last ordinal. At
// the table's end there is none.
fn add_bundle(
    fields: &mut Fields,
    objects: u32,
    imports: u32,
    last: u32,
    into: &mut Entries,
) -> Result<Option<u32>, Fail<TableRefusal>>
    requires { last ≤ 65535 }
    ensures read { AddsBundle result (bundle_at objects imports last fields.old)
        into.old into.new fields.new }
    ensures room { IfOk result (λ next. IfSome next (λ n. n ≤ 65535)) }
{
    let Some(head) = head_of(fields, objects, last)? else {
        return Ok(None);
    };
    let next = last + u32::from(head.count);
    let Some(form) = head.form else {
        return Ok(Some(next));
    };
    add_entries(fields, form, imports, head.count, last + 1, into)?;
    Ok(Some(next))
}

/// The entries of an entry table, from the bytes at the table's place up to the file's end, for a
/// module with so many objects and import modules. Their ordinals rise.
///
/// A refusal is `short` where a field passes the end. Otherwise it is a type over 4, an object
/// that is not there or ordinals past 65,535, at the bundle's count byte, or a forwarder's module
/// that is not there, at its flags byte.
pub fn read_entries(
    alloc: Global,
    bytes: &[u8],
    objects: u32,
    imports: u32,
) -> Result<Entries, Fail<TableRefusal>>
    requires { length bytes.now < 2 ^ 32 }
    ensures { Gives (λ entries. entries) (if_said_as (refusal kinds.EntryTable)) result
        (entries_in objects imports bytes.now) }
{
    let mut fields = Fields::of(bytes);
    let mut entries = Seq::new(alloc);
    let mut last = 0;
    while let Some(next) = add_bundle(&mut fields, objects, imports, last, &mut entries)? {
        last = next;
    }
    Ok(entries)
}
