//! The logical segments of a link and its groups.

ghost use Rattle.std.specs.Prelude.{◌≡◌, None, Some, [], ◌∷◌, map};
ghost use Rattle.lx_types.specs.Answers.{Answers};
ghost use Rattle.link_model.specs.LayoutRefusals.{absolute, use_mixed, group_split};
ghost use Rattle.link_model.specs.Words.{first_of};
ghost use Rattle.link_model.specs.Link.{Link};
ghost use Rattle.link_model.specs.Symbols as symbols;
ghost use Rattle.link_types.specs.Links.{link_with};
ghost use Rattle.seg_parts.specs.FixedNames.{AreFixed};
ghost use Rattle.seg_parts.specs.Members.{member_shown};
ghost use Rattle.seg_parts.specs.Parts.{shown};
ghost use Rattle.seg_merge.specs.Grouped.{AreGrouped};
ghost use Rattle.seg_merge.specs.Refused.{AreOf};

use crate::refused::check_segments;
use link_model::LayRefusal;
use lx_types::{Fail, Name};
use obj_types::{Common, DefFile, LinkInput, ObjModule};
use seg_parts::{
    FixedNames, GroupNames, LinkGroups, LogicalSegments, Member, Part, check_absolute, link_groups,
    parts_of, segments_of,
};
use std::alloc::Global;

/// The logical segments of a link, the names of its groups, and what is in these.
#[derive(Drop)]
pub struct Grouped<'a> {
    pub segments: LogicalSegments<'a>,
    pub names: GroupNames<'a>,
    pub members: Vec<Member<'a>>,
}

// The logical segments and the groups of a link of these parts, where these are its groups.
fn group_parts<'a>(
    alloc: Global,
    def: &DefFile,
    groups: LinkGroups<'a>,
    parts: Vec<Part<'a>>,
) -> Result<Grouped<'a>, Fail<LayRefusal>>
    requires { (l : Link) × AreOf l def.now (map shown parts.items) groups.names (map member_shown groups.members.items) }
    ensures { (l : Link) → AreOf l def.entry.now (map shown parts.entry.items) groups.entry.names (map member_shown groups.entry.members.items) → Answers result
        (λ g. (use_mixed l ≡ None) × (group_split l ≡ None) × AreGrouped l g)
        (λ refusal. first_of (use_mixed l ∷ group_split l ∷ []) ≡ Some refusal) }
{
    let LinkGroups { names, members } = groups;
    let segments = segments_of(alloc, parts)?;
    match check_segments(alloc, def, &segments, &names, members.as_slice()) {
        Err(fail) => Err(fail),
        Ok(()) => Ok(Grouped {
            segments,
            names,
            members,
        }),
    }
}

/// The logical segments and the groups of a link of these modules. An absolute segment, mixed use and a split group are
/// refused, in this order.
pub fn grouped_of<'a>(
    alloc: Global,
    input: &'a LinkInput,
    modules: &[&'a ObjModule],
    fixed: &'a FixedNames,
    commons: &[(Name, Common)],
) -> Result<Grouped<'a>, Fail<LayRefusal>>
    requires fixed { AreFixed fixed.now }
    requires commons { commons.now ≡ symbols.commons (link_with input.now modules.now) }
    ensures { let l = link_with input.entry.now modules.entry.now in Answers result
        (λ g. (first_of (absolute l ∷ use_mixed l ∷ group_split l ∷ []) ≡ None) × AreGrouped l g)
        (λ refusal. first_of (absolute l ∷ use_mixed l ∷ group_split l ∷ []) ≡ Some refusal) }
{
    let parts = parts_of(alloc, input, modules, fixed, commons)?;
    match check_absolute(alloc, parts.as_slice()) {
        Err(fail) => Err(fail),
        Ok(()) => {
            let groups = link_groups(alloc, input, modules, fixed, commons)?;
            group_parts(alloc, &input.def, groups, parts)
        }
    }
}
