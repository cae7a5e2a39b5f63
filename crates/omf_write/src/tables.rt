//! The names of a module, each once ("96h LNAMES").

ghost use Rattle.std.specs.Prelude.{◌≡◌, ◌≤◌, IfOk, OnOk, length};
ghost use Rattle.name_table.specs.Entries.{with_entry};
ghost use Rattle.omf_write.specs.ObjectBytes.{name_records};
ghost use Rattle.omf_write.specs.ObjectNames.{with_names, seg_names, group_names, names_of, name_index};

use crate::fields::push_name;
use crate::framed::push_record;
use lx_types::NoMemory;
use name_table::NameTable;
use obj_types::{Group, ObjModule, Seg};
use omf_frame::record_type::LNAMES;
use std::alloc::Global;

/// Names in the order in which they first appear, and a record for each.
#[derive(Drop)]
pub struct NameRecords {
    pub table: NameTable<u8>,
    pub records: Vec<u8>,
}

// Adds a name and its record, unless the name is there.
#[tactic(auto, using(crate::proofs::NamesRead::found, crate::proofs::NamesRead::not_found, crate::proofs::NamesRead::one_more_record))]
fn add_name(
    alloc: Global,
    names: &mut NameTable<u8>,
    records: &mut Vec<u8>,
    name: &[u8],
) -> Result<(), NoMemory>
    requires short { length name.now ≤ 255 }
    requires so_far { records.old.items ≡ name_records names.old }
    ensures table { OnOk result (names.new ≡ with_entry names.old name.now 0) }
    ensures records { OnOk result (records.new.items ≡ name_records names.new) }
{
    if names.place_of(name).is_some() {
        return Ok(());
    }
    let mut contents = Vec::new(alloc);
    push_name(&mut contents, name)?;
    push_record(records, LNAMES, &contents)?;
    names.push(alloc, name, 0)?;
    Ok(())
}

// Adds the names of segments and of their classes.
fn add_segments(
    alloc: Global,
    names: &mut NameTable<u8>,
    records: &mut Vec<u8>,
    segs: &[Seg],
) -> Result<(), NoMemory>
    requires { records.old.items ≡ name_records names.old }
    ensures table { OnOk result (names.new ≡ with_names names.old (seg_names segs.now)) }
    ensures records { OnOk result (records.new.items ≡ name_records names.new) }
{
    for seg in segs {
        add_name(alloc, names, records, seg.name.bytes())?;
        add_name(alloc, names, records, seg.class.bytes())?;
    }
    Ok(())
}

// Adds the names of groups.
fn add_groups(
    alloc: Global,
    names: &mut NameTable<u8>,
    records: &mut Vec<u8>,
    groups: &[Group],
) -> Result<(), NoMemory>
    requires { records.old.items ≡ name_records names.old }
    ensures table { OnOk result (names.new ≡ with_names names.old (group_names groups.now)) }
    ensures records { OnOk result (records.new.items ≡ name_records names.new) }
{
    for group in groups {
        add_name(alloc, names, records, group.name.bytes())?;
    }
    Ok(())
}

/// The empty name, and the names of the module's segments, classes and groups.
#[tactic(auto, using(crate::proofs::NamesRead::with_both))]
pub fn names_of(alloc: Global, m: &ObjModule) -> Result<NameRecords, NoMemory>
    ensures { IfOk result (λ names. (names.table ≡ names_of m.now) × (names.records.items ≡ name_records (names_of m.now))) }
{
    let mut table = NameTable::new(alloc);
    let mut records = Vec::new(alloc);
    add_name(alloc, &mut table, &mut records, &[])?;
    add_segments(alloc, &mut table, &mut records, m.segs.as_slice())?;
    add_groups(alloc, &mut table, &mut records, m.groups.as_slice())?;
    Ok(NameRecords { table, records })
}

/// The index of a name, from 1.
#[tactic(auto, using(crate::proofs::NamesRead::no_place))]
pub fn name_index(names: &NameTable<u8>, name: &[u8]) -> u32
    requires { length names.now ≤ 32767 }
    ensures { result ≡ name_index names.now name.now }
{
    match names.place_of(name) {
        Some(place) => place as u32 + 1,
        None => names.len() as u32 + 1,
    }
}
