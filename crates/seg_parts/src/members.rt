//! Which logical segments the groups list.

ghost use Rattle.std.specs.Prelude.{◌≡◌, ◌++◌, ◌<◌, ◌-◌, map, bytes_eq, slice_get, option_map, option_copied, IfOk, OnOk};
ghost use Rattle.std.specs.List.{list_any};
ghost use Rattle.link_types.specs.Links.{link_with};
ghost use Rattle.seg_parts.specs.LogicalSegments.{name_shown};
ghost use Rattle.seg_parts.specs.Members.{member_shown, segment_at, listed_at, listed_by, listed_in, memberships, near_members, is_member};
ghost use Rattle.seg_parts.specs.Communals.{is_in};
ghost use Rattle.seg_parts.specs.FixedNames.{AreFixed};
ghost use Rattle.link_model.specs.Groups.{DGROUP};
ghost use Rattle.link_model.specs.Parts.{Part};

use crate::groups::GroupNames;
use crate::logical_segments::{SegmentName, name_of};
use crate::parts::{FixedNames, part_of};
use indexmap::IndexSet;
use lx_types::{NoMemory, count};
use obj_types::{Group, LinkInput, ObjModule, Seg};
use std::alloc::Global;

/// A logical segment that a group lists.
#[derive(Clone, Copy)]
pub struct Member<'a> {
    pub group: &'a [u8],
    pub segment: SegmentName<'a>,
}

// The segment with an index from 1.
fn seg_at(object: &ObjModule, index: u32) -> Option<&Seg>
    requires { 0 < index }
    ensures { option_copied result ≡ slice_get object.entry.now.segs (index - 1) }
{
    object.segs.as_slice().get(index as usize - 1)
}

// The logical segment of a module's segment; a debug segment has none.
fn segment_at<'a>(module: u32, object: &'a ObjModule, index: u32) -> Option<SegmentName<'a>>
    ensures { option_map name_shown result ≡ segment_at «module» object.entry.now index }
{
    if index == 0 {
        return None;
    }
    match seg_at(object, index) {
        None => None,
        Some(seg) => {
            if seg.debug {
                None
            } else {
                Some(name_of(&part_of(module, index, seg)))
            }
        }
    }
}

fn member_at<'a>(
    module: u32,
    object: &'a ObjModule,
    group: &'a Group,
    index: u32,
) -> Option<Member<'a>>
    ensures { option_map member_shown result ≡ listed_at «module» object.entry.now group.entry.now index }
{
    match segment_at(module, object, index) {
        None => None,
        Some(segment) => Some(Member {
            group: group.name.bytes(),
            segment,
        }),
    }
}

fn add_listed<'a>(
    found: &mut Vec<Member<'a>>,
    module: u32,
    object: &'a ObjModule,
    group: &'a Group,
) -> Result<(), NoMemory>
    ensures { OnOk result (map member_shown found.new.items
        ≡ map member_shown found.old.items ++ listed_by «module» object.entry.now group.entry.now) }
{
    for index in group.members.as_slice() {
        if let Some(member) = member_at(module, object, group, *index) {
            found.push(member)?;
        }
    }
    Ok(())
}

fn add_groups<'a>(
    found: &mut Vec<Member<'a>>,
    module: u32,
    object: &'a ObjModule,
) -> Result<(), NoMemory>
    ensures { OnOk result (map member_shown found.new.items ≡ map member_shown found.old.items ++ listed_in «module» object.entry.now) }
{
    for group in object.groups.as_slice() {
        add_listed(found, module, object, group)?;
    }
    Ok(())
}

/// What the groups of these modules list, in order.
pub fn members_of<'a>(
    alloc: Global,
    input: &'a LinkInput,
    modules: &[&'a ObjModule],
) -> Result<Vec<Member<'a>>, NoMemory>
    ensures { IfOk result (λ found. map member_shown found.items ≡ memberships (link_with input.entry.now modules.entry.now)) }
{
    let mut found = Vec::new(alloc);
    for (place, object) in modules.iter().enumerate() {
        add_groups(&mut found, count(place + 1)?, object)?;
    }
    Ok(found)
}

fn has_dgroup(names: &GroupNames<'_>) -> bool
    ensures { result ≡ list_any (bytes_eq DGROUP) names.now }
{
    names.place_of(b"DGROUP").is_some()
}

/// The logical segment of the near communals is in DGROUP too, where a module declares that group.
pub fn add_near<'a>(
    found: &mut Vec<Member<'a>>,
    names: &GroupNames<'_>,
    fixed: &'a FixedNames,
    has_near: bool,
) -> Result<(), NoMemory>
    requires { AreFixed fixed.now }
    ensures { OnOk result (map member_shown found.new.items ≡ map member_shown found.old.items ++ near_members names.now has_near) }
{
    let wanted = has_near && has_dgroup(names);
    if wanted {
        found.push(Member {
            group: b"DGROUP",
            segment: SegmentName::Public {
                name: fixed.near.bytes(),
                class: fixed.bss.bytes(),
            },
        })?;
    }
    Ok(())
}

fn is_of_dgroup(member: &Member<'_>) -> bool
    ensures { result ≡ bytes_eq member.now.group.now DGROUP }
{
    member.group == b"DGROUP".as_slice()
}

/// The logical segments of DGROUP.
pub(crate) fn dgroup_of<'a>(
    alloc: Global,
    members: &[Member<'a>],
) -> Result<IndexSet<SegmentName<'a>>, NoMemory>
    ensures { IfOk result (λ names. (p : Part) → is_in names.keys p ≡ is_member (map member_shown members.entry.now) DGROUP p) }
{
    let mut names = IndexSet::new(alloc);
    for member in members {
        if is_of_dgroup(member) {
            names.insert_full(member.segment)?;
        }
    }
    Ok(names)
}
