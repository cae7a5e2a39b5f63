//! The publics of modules, in their orders.

ghost use Rattle.std.specs.Prelude.{◌≡◌, ◌++◌, OnOk, IfOk, map, option_map, option_to_list};
ghost use Rattle.std.specs.List.{flat_map, enumerate_from, filter_map};
ghost use Rattle.link_fix.specs.Shown.{target_shown};
ghost use Rattle.map_model.specs.Maps as orders;
ghost use Rattle.map_core.specs.Shown.{by_address, by_name};
ghost use Rattle.map_core.specs.Places.{meaning_in, placed_in, valued_in, placed_in_module, valued_in_module};

use crate::addresses::address_of;
use link_fix::Target;
use link_model::SymDef;
use link_place::of_symbol;
use link_types::Layout;
use lx_types::{NoMemory, count};
use obj_types::{ObjModule, Pub, PubPlace};
use std::alloc::Global;

// What a public of a module stands for, where it is not local.
fn meaning_of(lay: &Layout, by: u32, public: &Pub) -> Option<Target>
    ensures { option_map target_shown result ≡ meaning_in lay.now by public.now }
{
    if public.local {
        return None;
    }
    let symbol = match public.place {
        PubPlace::In { seg, offset } => SymDef::In {
            module: by,
            seg,
            offset,
        },
        PubPlace::Const { value } => SymDef::Const { value },
    };
    of_symbol(&lay.places, symbol)
}

// A public that has a place, with its address.
fn placed<'a>(lay: &Layout, by: u32, public: &'a Pub) -> Option<(u32, &'a [u8])>
    ensures { option_map by_address result ≡ placed_in lay.now by public.entry.now }
{
    match meaning_of(lay, by, public) {
        Some(Target::Internal { object, offset }) => {
            Some((
                address_of(lay.objects(), object, offset),
                public.name.bytes(),
            ))
        }
        _ => None,
    }
}

// A public that is a number.
fn valued<'a>(lay: &Layout, by: u32, public: &'a Pub) -> Option<(&'a [u8], u32)>
    ensures { option_map by_name result ≡ valued_in lay.now by public.entry.now }
{
    match meaning_of(lay, by, public) {
        Some(Target::Constant { value }) => Some((public.name.bytes(), value)),
        _ => None,
    }
}

fn keep_place<'a>(
    found: &mut Vec<(u32, &'a [u8])>,
    place: Option<(u32, &'a [u8])>,
) -> Result<(), NoMemory>
    ensures { OnOk result (map by_address found.new.items ≡ map by_address found.old.items ++ option_to_list (option_map by_address place.entry)) }
{
    if let Some(place) = place {
        found.push(place)?;
    }
    Ok(())
}

fn keep_value<'a>(
    found: &mut Vec<(&'a [u8], u32)>,
    value: Option<(&'a [u8], u32)>,
) -> Result<(), NoMemory>
    ensures { OnOk result (map by_name found.new.items ≡ map by_name found.old.items ++ option_to_list (option_map by_name value.entry)) }
{
    if let Some(value) = value {
        found.push(value)?;
    }
    Ok(())
}

fn add_placed<'a>(
    found: &mut Vec<(u32, &'a [u8])>,
    lay: &Layout,
    by: u32,
    publics: &'a [Pub],
) -> Result<(), NoMemory>
    ensures { OnOk result (map by_address found.new.items ≡ map by_address found.old.items ++ filter_map (placed_in lay.now by) publics.entry.now) }
{
    for public in publics {
        keep_place(found, placed(lay, by, public))?;
    }
    Ok(())
}

fn add_valued<'a>(
    found: &mut Vec<(&'a [u8], u32)>,
    lay: &Layout,
    by: u32,
    publics: &'a [Pub],
) -> Result<(), NoMemory>
    ensures { OnOk result (map by_name found.new.items ≡ map by_name found.old.items ++ filter_map (valued_in lay.now by) publics.entry.now) }
{
    for public in publics {
        keep_value(found, valued(lay, by, public))?;
    }
    Ok(())
}

fn all_placed<'a>(
    alloc: Global,
    lay: &Layout,
    modules: &[&'a ObjModule],
) -> Result<Vec<(u32, &'a [u8])>, NoMemory>
    ensures { IfOk result (λ found. map by_address found.items ≡ flat_map (placed_in_module lay.now) (enumerate_from 1 (map (λ m. m.now) modules.now))) }
{
    let mut found = Vec::new(alloc);
    for (place, object) in modules.iter().enumerate() {
        add_placed(&mut found, lay, count(place + 1)?, object.pubs.as_slice())?;
    }
    Ok(found)
}

fn all_valued<'a>(
    alloc: Global,
    lay: &Layout,
    modules: &[&'a ObjModule],
) -> Result<Vec<(&'a [u8], u32)>, NoMemory>
    ensures { IfOk result (λ found. map by_name found.items ≡ flat_map (valued_in_module lay.now) (enumerate_from 1 (map (λ m. m.now) modules.now))) }
{
    let mut found = Vec::new(alloc);
    for (place, object) in modules.iter().enumerate() {
        add_valued(&mut found, lay, count(place + 1)?, object.pubs.as_slice())?;
    }
    Ok(found)
}

/// The publics that have a place, by address and then by name.
pub fn places_of<'a>(
    alloc: Global,
    lay: &Layout,
    modules: &[&'a ObjModule],
) -> Result<Vec<(u32, &'a [u8])>, NoMemory>
    ensures { IfOk result (λ found. orders.AreInOrder orders.by_number
        (flat_map (placed_in_module lay.now) (enumerate_from 1 (map (λ m. m.now) modules.now))) (map by_address found.items)) }
{
    let mut places = all_placed(alloc, lay, modules)?;
    places.sort()?;
    Ok(places)
}

/// The other publics, by name.
pub fn values_of<'a>(
    alloc: Global,
    lay: &Layout,
    modules: &[&'a ObjModule],
) -> Result<Vec<(&'a [u8], u32)>, NoMemory>
    ensures { IfOk result (λ found. orders.AreInOrder orders.by_name
        (flat_map (valued_in_module lay.now) (enumerate_from 1 (map (λ m. m.now) modules.now))) (map by_name found.items)) }
{
    let mut values = all_valued(alloc, lay, modules)?;
    values.sort()?;
    Ok(values)
}
