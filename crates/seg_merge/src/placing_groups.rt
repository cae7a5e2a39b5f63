//! The objects of groups.

ghost use Rattle.std.specs.Prelude.{◌≡◌, ◌<◌, ◌+◌, All, map, length, IfOk};
ghost use Rattle.lx_types.specs.declared.limits.TheConstants.{MAX_OBJECTS};
ghost use Rattle.seg_merge.specs.Placing.{object_named};

use crate::placing_parts::object_of;
use lx_types::NoMemory;
use obj_types::{Group, ObjModule};
use seg_parts::{GroupNames, Placed};
use std::alloc::Global;

/// The number, from 1, of each logical segment's object.
pub fn objects_of(alloc: Global, rows: &[Placed<'_>]) -> Result<Vec<u32>, NoMemory>
    requires { All (λ r. r.object < MAX_OBJECTS) rows.now }
    ensures { IfOk result (λ objects. objects.items ≡ map (λ r. r.object + 1) rows.now) }
{
    let mut objects = Vec::new(alloc);
    for row in rows {
        objects.push(object_of(row))?;
    }
    Ok(objects)
}

// The object of a group by its name: none for FLAT and for a group without members.
fn object_named(names: &GroupNames<'_>, objects: &[Option<u32>], name: &[u8]) -> Option<u32>
    requires { length objects.now ≡ length names.now }
    ensures { result ≡ object_named names.now objects.now name.now }
{
    match names.place_of(name) {
        None => None,
        Some(place) => objects[place],
    }
}

fn groups_in(
    alloc: Global,
    groups: &[Group],
    names: &GroupNames<'_>,
    objects: &[Option<u32>],
) -> Result<Vec<Option<u32>>, NoMemory>
    requires { length objects.now ≡ length names.now }
    ensures { IfOk result (λ found. found.items ≡ map (λ g. object_named names.now objects.now g.name) groups.now) }
{
    let mut found = Vec::new(alloc);
    for group in groups {
        found.push(object_named(names, objects, group.name.bytes()))?;
    }
    Ok(found)
}

/// The objects of the groups of these modules, by module and group, where `objects` are those of the names of groups.
pub fn groups_of(
    alloc: Global,
    modules: &[&ObjModule],
    names: &GroupNames<'_>,
    objects: &[Option<u32>],
) -> Result<Vec<Vec<Option<u32>>>, NoMemory>
    requires { length objects.now ≡ length names.now }
    ensures { IfOk result (λ found. map (λ v. v.items) found.items
        ≡ map (λ m. map (λ g. object_named names.now objects.now g.name) m.now.groups) modules.now) }
{
    let mut found = Vec::new(alloc);
    for object in modules {
        found.push(groups_in(alloc, object.groups.as_slice(), names, objects)?)?;
    }
    Ok(found)
}
