//! All parts of a link: its contributions and, after them, its communals.

ghost use Rattle.std.specs.Prelude.{◌≡◌, map, IfOk};
ghost use Rattle.link_model.specs.Communals.{parts};
ghost use Rattle.link_model.specs.Groups as groups;
ghost use Rattle.link_model.specs.Parts as rules;
ghost use Rattle.link_model.specs.Symbols as symbols;
ghost use Rattle.link_types.specs.Links.{link_with};
ghost use Rattle.seg_parts.specs.Communals.{is_in};
ghost use Rattle.seg_parts.specs.FixedNames.{AreFixed};
ghost use Rattle.seg_parts.specs.Members.{is_member, all_memberships};
ghost use Rattle.seg_parts.specs.Parts.{shown};

use crate::all_groups::{has_near, link_groups};
use crate::communals::{add_communals, widths_of};
use crate::logical_segments::SegmentName;
use crate::members::dgroup_of;
use crate::parts::{FixedNames, Part, contributions_of};
use indexmap::IndexSet;
use lx_types::{Name, NoMemory};
use obj_types::{Common, LinkInput, ObjModule};
use std::alloc::Global;

/// The logical segments of DGROUP in a link of these modules whose communals are these.
fn dgroup_in<'a>(
    alloc: Global,
    input: &'a LinkInput,
    modules: &[&'a ObjModule],
    fixed: &'a FixedNames,
    commons: &[(Name, Common)],
) -> Result<IndexSet<SegmentName<'a>>, NoMemory>
    requires fixed { AreFixed fixed.now }
    requires commons { commons.now ≡ symbols.commons (link_with input.now modules.now) }
    ensures { IfOk result (λ names. (p : rules.Part) → is_in names.keys p
        ≡ is_member (all_memberships (link_with input.entry.now modules.entry.now)) groups.DGROUP p) }
{
    let groups = link_groups(alloc, input, modules, fixed, commons)?;
    dgroup_of(alloc, groups.members.as_slice())
}

/// The parts of a link of these modules whose communals are these, in order.
pub fn parts_of<'a>(
    alloc: Global,
    input: &'a LinkInput,
    modules: &[&'a ObjModule],
    fixed: &'a FixedNames,
    commons: &[(Name, Common)],
) -> Result<Vec<Part<'a>>, NoMemory>
    requires fixed { AreFixed fixed.now }
    requires commons { commons.now ≡ symbols.commons (link_with input.now modules.now) }
    ensures { IfOk result (λ found. map shown found.items ≡ parts (link_with input.entry.now modules.entry.now)) }
{
    let near = has_near(commons);
    let dgroup = dgroup_in(alloc, input, modules, fixed, commons)?;
    let mut found = contributions_of(alloc, input, modules)?;
    let widths = widths_of(found.as_slice(), &dgroup, fixed, near);
    drop(dgroup);
    add_communals(&mut found, commons, fixed, widths)?;
    Ok(found)
}
