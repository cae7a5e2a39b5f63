//! Refusals of logical segments and groups.

ghost use Rattle.std.specs.Prelude.{◌≡◌, None, Some, [], ◌∷◌, map};
ghost use Rattle.lx_types.specs.Answers.{Answers};
ghost use Rattle.link_model.specs.Link.{Link};
ghost use Rattle.link_model.specs.Words.{first_of};
ghost use Rattle.link_model.specs.LayoutRefusals.{use_mixed, group_split};
ghost use Rattle.seg_parts.specs.Members.{member_shown};
ghost use Rattle.seg_merge.specs.Refused.{AreOf};

use crate::membership::membership_of;
use crate::splits::check_groups;
use crate::uses::check_use;
use link_model::LayRefusal;
use lx_types::Fail;
use obj_types::DefFile;
use seg_parts::{GroupNames, LogicalSegments, Member, flags_of};
use std::alloc::Global;

/// Mixed use and split groups are refused, in this order.
pub fn check_segments(
    alloc: Global,
    def: &DefFile,
    segments: &LogicalSegments<'_>,
    names: &GroupNames<'_>,
    members: &[Member<'_>],
) -> Result<(), Fail<LayRefusal>>
    requires { (l : Link) × AreOf l def.now segments.now names.now (map member_shown members.now) }
    ensures { (l : Link) → AreOf l def.now segments.now names.now (map member_shown members.now) → Answers result
        (λ _. (use_mixed l ≡ None) × (group_split l ≡ None))
        (λ refusal. first_of (use_mixed l ∷ group_split l ∷ []) ≡ Some refusal) }
{
    let groups = membership_of(alloc, segments, names, members)?;
    let flags = flags_of(alloc, def, segments.heads())?;
    match check_use(alloc, segments, groups.as_slice(), names.names().len()) {
        Err(fail) => Err(fail),
        Ok(()) => check_groups(alloc, names, groups.as_slice(), flags.as_slice()),
    }
}
