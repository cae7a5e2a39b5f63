//! The groups of a link, and which logical segments they have.

ghost use Rattle.std.specs.Prelude.{◌≡◌, not, map, IfOk};
ghost use Rattle.std.specs.List.{list_any};
ghost use Rattle.link_model.specs.Groups.{group_names};
ghost use Rattle.link_model.specs.Symbols as symbols;
ghost use Rattle.link_types.specs.Links.{link_with};
ghost use Rattle.seg_parts.specs.FixedNames.{AreFixed};
ghost use Rattle.seg_parts.specs.Members.{member_shown, all_memberships};

use crate::groups::{GroupNames, group_names_of};
use crate::members::{Member, add_near, members_of};
use crate::parts::FixedNames;
use lx_types::{Name, NoMemory};
use obj_types::{Common, LinkInput, ObjModule};
use std::alloc::Global;

/// The groups of a link.
#[derive(Drop)]
pub struct LinkGroups<'a> {
    pub names: GroupNames<'a>,
    /// What its modules list, and the near communals.
    pub members: Vec<Member<'a>>,
}

/// Whether one of these communals is near.
pub(crate) fn has_near(commons: &[(Name, Common)]) -> bool
    ensures { result ≡ list_any (λ c. not c.1.far) commons.now }
{
    commons.iter().any(|common| !common.1.far)
}

/// The groups of a link of these modules whose communals are these.
pub fn link_groups<'a>(
    alloc: Global,
    input: &'a LinkInput,
    modules: &[&'a ObjModule],
    fixed: &'a FixedNames,
    commons: &[(Name, Common)],
) -> Result<LinkGroups<'a>, NoMemory>
    requires fixed { AreFixed fixed.now }
    requires commons { commons.now ≡ symbols.commons (link_with input.now modules.now) }
    ensures names { IfOk result (λ groups. groups.names ≡ group_names (link_with input.entry.now modules.entry.now)) }
    ensures members { IfOk result (λ groups. map member_shown groups.members.items ≡ all_memberships (link_with input.entry.now modules.entry.now)) }
{
    let names = group_names_of(alloc, input, modules)?;
    let mut members = members_of(alloc, input, modules)?;
    add_near(&mut members, &names, fixed, has_near(commons))?;
    Ok(LinkGroups { names, members })
}
