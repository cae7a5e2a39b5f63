//! The objects of logical segments, by their groups and their flags.

ghost use Rattle.std.specs.Prelude.{◌≡◌, ◌<◌, ℕ, map, min, fold, length, slice_get, option_map, IfOk};
ghost use Rattle.std.specs.List.{range_with_len};
ghost use Rattle.seg_parts.specs.Objects.{object_shown};
ghost use Rattle.seg_parts.specs.Parts.{shown};
ghost use Rattle.seg_merge.specs.Ordered.{key_at};

use crate::membership::groups_at;
use crate::splits::least;
use lx_types::{Name, NoMemory};
use seg_parts::{GroupNames, ObjectName, Part, object_name};
use std::alloc::Global;

// The first of the groups with these places.
fn first_group<'a>(names: &GroupNames<'a>, groups: &[usize]) -> Option<&'a Name>
    ensures { option_map (λ n. n.now) result ≡ slice_get names.now (fold (λ (a : ℕ) (g : ℕ). min a g) (length names.now) groups.now) }
{
    let names = names.names();
    names.get(least(groups, names.len())).copied()
}

fn name_at<'a>(
    heads: &[Part<'a>],
    groups: &[Vec<usize>],
    flags: &[u32],
    names: &GroupNames<'a>,
    number: usize,
) -> ObjectName<'a>
    requires heads { number < length heads.now }
    requires groups { number < length groups.now }
    requires flags { number < length flags.now }
    ensures { object_shown result ≡ key_at (map shown heads.entry.now) flags.now names.entry.now (map (λ v. v.items) groups.now) number }
{
    let head = heads[number];
    let group = first_group(names, groups_at(groups, number));
    object_name(&head, group, flags[number])
}

/// The object of each logical segment with these first parts, places of groups and flags.
pub fn object_names_of<'a>(
    alloc: Global,
    heads: &[Part<'a>],
    groups: &[Vec<usize>],
    flags: &[u32],
    names: &GroupNames<'a>,
) -> Result<Vec<ObjectName<'a>>, NoMemory>
    requires groups { length groups.now ≡ length heads.now }
    requires flags { length flags.now ≡ length heads.now }
    ensures { IfOk result (λ objects. map object_shown objects.items
        ≡ map (key_at (map shown heads.entry.now) flags.now names.entry.now (map (λ v. v.items) groups.now)) (range_with_len 0 (length heads.entry.now))) }
{
    let mut objects = Vec::new(alloc);
    for number in 0..heads.len() {
        objects.push(name_at(heads, groups, flags, names, number))?;
    }
    Ok(objects)
}
