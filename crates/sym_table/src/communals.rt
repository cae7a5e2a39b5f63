//! Communals: the names without definition that a COMDEF has, in order of the first COMDEF.

ghost use Rattle.std.specs.Prelude.{◌≡◌, ◌++◌, ℕ, List, map, filter, is_none, option_map, unwrap_or, IfOk, OnOk};
ghost use Rattle.std.specs.List.{filter_map};
ghost use Rattle.name_table.specs.Entries.{value_named, with_entry};
ghost use Rattle.link_model.specs.Appearance.{firsts};
ghost use Rattle.link_model.specs.Symbols.{comdef_of, comdefs};
ghost use Rattle.link_types.specs.Links.{link_with};
ghost use Rattle.sym_table.specs.Firsts.{same_name};
ghost use Rattle.sym_table.specs.Communals.{comdef_shown, long_as, with_greatest, AreGreatest, slotted};

use crate::definitions::Definition;
use link_model::SymDef;
use lx_types::{Name, NoMemory, Seq, count};
use name_table::{LentTable, NameTable};
use obj_types::{Common, Ext, LinkInput, ObjModule};
use std::alloc::Global;

/// A COMDEF: a name and its storage.
#[derive(Clone, Copy)]
pub struct Comdef<'a> {
    pub name: &'a Name,
    pub common: Common,
}

// The COMDEF of an external that has one.
fn comdef_in<'a>(external: &'a Ext) -> Option<Comdef<'a>>
    ensures { option_map comdef_shown result ≡ comdef_of external.entry.now }
{
    if external.local {
        return None;
    }
    match external.common {
        None => None,
        Some(common) => Some(Comdef {
            name: &external.name,
            common,
        }),
    }
}

fn add_comdefs<'a>(found: &mut Vec<Comdef<'a>>, externals: &'a [Ext]) -> Result<(), NoMemory>
    ensures { OnOk result (map comdef_shown found.new.items
        ≡ map comdef_shown found.old.items ++ filter_map comdef_of externals.entry.now) }
{
    for external in externals {
        if let Some(comdef) = comdef_in(external) {
            found.push(comdef)?;
        }
    }
    Ok(())
}

/// All COMDEFs, in chosen order.
pub fn comdefs_of<'a>(
    alloc: Global,
    input: &'a LinkInput,
    modules: &[&'a ObjModule],
) -> Result<Vec<Comdef<'a>>, NoMemory>
    ensures { IfOk result (λ found. map comdef_shown found.items ≡ comdefs (link_with input.entry.now modules.entry.now)) }
{
    let mut found = Vec::new(alloc);
    for object in modules {
        add_comdefs(&mut found, object.exts.as_slice())?;
    }
    Ok(found)
}

/// Those COMDEFs whose name has no definition.
pub fn undefined_of<'a>(
    alloc: Global,
    table: &LentTable<'_, Definition<'_>>,
    comdefs: &[Comdef<'a>],
) -> Result<Vec<Comdef<'a>>, NoMemory>
    ensures { IfOk result (λ found. map comdef_shown found.items
        ≡ filter (λ c. is_none (value_named c.0 table.entry.now)) (map comdef_shown comdefs.entry.now)) }
{
    let mut found = Vec::new(alloc);
    for comdef in comdefs {
        if table.get(comdef.name.bytes()).is_none() {
            found.push(*comdef)?;
        }
    }
    Ok(found)
}

fn len_in(lens: &LentTable<'_, u32>, name: &Name) -> u32
    ensures { result ≡ unwrap_or (value_named name.now lens.now) 0 }
{
    match lens.get(name.bytes()) {
        None => 0,
        Some(len) => *len,
    }
}

// The greatest length that a COMDEF of each name has.
fn lens_of<'a>(alloc: Global, comdefs: &[Comdef<'a>]) -> Result<LentTable<'a, u32>, NoMemory>
    ensures { IfOk result (λ lens. AreGreatest (map comdef_shown comdefs.entry.now) lens) }
{
    let mut lens = LentTable::new(alloc);
    for comdef in comdefs {
        let len = u32::max(len_in(&lens, comdef.name), comdef.common.len);
        lens.set(comdef.name.bytes(), len)?;
    }
    Ok(lens)
}

/// The communals with the greatest length that a COMDEF of the name has, and the slot of each name.
#[derive(Drop)]
pub struct Communals {
    pub list: Seq<(Name, Common)>,
    pub slots: NameTable<SymDef>,
}

// Adds the communal of a COMDEF, where its name has none yet.
fn add_communal(
    alloc: Global,
    communals: &mut Communals,
    lens: &LentTable<'_, u32>,
    comdef: &Comdef<'_>,
) -> Result<(), NoMemory>
    requires { communals.old.slots ≡ slotted communals.old.list }
    ensures list { OnOk result (communals.new.list ≡ with_entry communals.old.list comdef.now.name.now (long_as lens.now comdef.now)) }
    ensures slots { OnOk result (communals.new.slots ≡ slotted communals.new.list) }
{
    let slot = communals.slots.len();
    let meaning = SymDef::Common { slot: count(slot)? };
    let place = communals.slots.push(alloc, comdef.name.bytes(), meaning)?;
    if place == slot {
        let common = Common {
            far: comdef.common.far,
            len: len_in(lens, comdef.name),
        };
        communals.list.push((comdef.name.copied(alloc)?, common))?;
    }
    Ok(())
}

// The communals of these COMDEFs, by the lengths of all names.
fn communals_by(
    alloc: Global,
    lens: &LentTable<'_, u32>,
    comdefs: &[Comdef<'_>],
) -> Result<Communals, NoMemory>
    ensures list { IfOk result (λ c. (all : List (List ℕ × Common)) → AreGreatest all lens.now
        → c.list ≡ map (with_greatest all) (firsts same_name (map comdef_shown comdefs.now))) }
    ensures slots { IfOk result (λ c. c.slots ≡ slotted c.list) }
{
    let mut communals = Communals {
        list: Seq::new(alloc),
        slots: NameTable::new(alloc),
    };
    for comdef in comdefs {
        add_communal(alloc, &mut communals, lens, comdef)?;
    }
    Ok(communals)
}

/// The communals of these COMDEFs without definition, among all COMDEFs.
pub fn communals_of(
    alloc: Global,
    comdefs: &[Comdef<'_>],
    undefined: &[Comdef<'_>],
) -> Result<Communals, NoMemory>
    ensures list { IfOk result (λ c. c.list
        ≡ map (with_greatest (map comdef_shown comdefs.now)) (firsts same_name (map comdef_shown undefined.now))) }
    ensures slots { IfOk result (λ c. c.slots ≡ slotted c.list) }
{
    let lens = lens_of(alloc, comdefs)?;
    communals_by(alloc, &lens, undefined)
}
