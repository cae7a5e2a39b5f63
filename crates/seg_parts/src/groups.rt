//! Groups: their names, and which logical segments each has.

ghost use Rattle.std.specs.Prelude.{◌≡◌, ◌++◌, map, position, bytes_eq, IfOk, OnOk};
ghost use Rattle.std.specs.List.{flat_map};
ghost use Rattle.link_model.specs.Appearance.{firsts};
ghost use Rattle.link_model.specs.Groups as rules;
ghost use Rattle.link_types.specs.Links.{link_with};
ghost use Rattle.seg_parts.specs.Groups.{named_by};

use lx_types::{Name, NoMemory};
use name_table::NameTable;
use obj_types::{Group, LinkInput, ObjModule};
use std::alloc::Global;
use std::marker::Model;

/// The names of groups by first appearance, each with its place.
pub struct GroupNames<'a> {
    places: NameTable<()>,
    names: Vec<&'a Name>,
}

// Dropped by a call, as lists are (`Seq`).
impl Drop for GroupNames<'_> {
    fn drop(self) {
        let GroupNames { places, names } = self;
        drop(places);
        drop(names);
    }
}

impl<'a> Model for GroupNames<'a> {
    ghost use Rattle.std.specs.Prelude.{List, ℕ, map, ◌≡◌};
    ghost use Rattle.seg_parts.specs.Groups.{name_entries};

    ghost Value = { List (List ℕ) };

    ghost view = { λ s. map (λ n. n.now) s.names.items };

    ghost invariant = { λ s. s.places ≡ name_entries (map (λ n. n.now) s.names.items) };
}

impl<'a> GroupNames<'a> {
    /// The place of a group's name, from 0.
    pub fn place_of(&self, name: &[u8]) -> Option<usize>
        ensures { result ≡ position (bytes_eq name.now) self.now }
    {
        self.places.place_of(name)
    }

    /// The names, by their places.
    pub fn names(&self) -> &[&'a Name]
        ensures { map (λ n. n.now) result.now ≡ self.now }
    {
        self.names.as_slice()
    }
}

fn add_names<'a>(found: &mut Vec<&'a Name>, groups: &'a [Group]) -> Result<(), NoMemory>
    ensures { OnOk result (map (λ n. n.now) found.new.items ≡ map (λ n. n.now) found.old.items ++ named_by groups.entry.now) }
{
    for group in groups {
        if group.name.bytes() != b"FLAT".as_slice() {
            found.push(&group.name)?;
        }
    }
    Ok(())
}

/// The names of the groups other than FLAT, in order.
fn all_names<'a>(alloc: Global, modules: &[&'a ObjModule]) -> Result<Vec<&'a Name>, NoMemory>
    ensures { IfOk result (λ found. map (λ n. n.now) found.items ≡ flat_map (λ m. named_by m.now.groups) modules.entry.now) }
{
    let mut found = Vec::new(alloc);
    for object in modules {
        add_names(&mut found, object.groups.as_slice())?;
    }
    Ok(found)
}

/// Each of these names once, by first appearance.
fn first_names<'a>(alloc: Global, all: &[&'a Name]) -> Result<GroupNames<'a>, NoMemory>
    ensures { IfOk result (λ found. found ≡ firsts bytes_eq (map (λ n. n.now) all.entry.now)) }
{
    let mut places = NameTable::new(alloc);
    let mut names = Vec::new(alloc);
    for name in all {
        let place = places.push(alloc, name.bytes(), ())?;
        if place == names.len() {
            names.push(*name)?;
        }
    }
    Ok(GroupNames { places, names })
}

/// The names of the groups other than FLAT, by first appearance.
pub fn group_names_of<'a>(
    alloc: Global,
    input: &'a LinkInput,
    modules: &[&'a ObjModule],
) -> Result<GroupNames<'a>, NoMemory>
    ensures { IfOk result (λ found. found ≡ rules.group_names (link_with input.entry.now modules.entry.now)) }
{
    let all = all_names(alloc, modules)?;
    first_names(alloc, all.as_slice())
}
