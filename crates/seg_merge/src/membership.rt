//! Which groups the logical segments are in.

ghost use Rattle.std.specs.Prelude.{◌≡◌, ◌<◌, [], map, length, get_or, position, bytes_eq, AllPairs, false, IfOk};
ghost use Rattle.link_model.specs.Parts.{same_segment};
ghost use Rattle.seg_parts.specs.LogicalSegments.{name_shown, heads_of, segment_keys_of};
ghost use Rattle.seg_parts.specs.Members.{member_shown, is_member};
ghost use Rattle.seg_merge.specs.Membership.{both, AreGroupsOf};

use lx_types::NoMemory;
use seg_parts::{GroupNames, LogicalSegments, Member, empty_lists};
use std::alloc::Global;

// The places of a member's group and of its logical segment.
fn places_of(
    segments: &LogicalSegments<'_>,
    names: &GroupNames<'_>,
    member: &Member<'_>,
) -> Option<(usize, usize)>
    ensures { result ≡ both (position (bytes_eq member.now.group.now) names.now)
        (position (same_segment (name_shown member.now.segment)) (segment_keys_of segments.now)) }
{
    match names.place_of(member.group) {
        None => None,
        Some(group) => match segments.number_of(member.segment) {
            None => None,
            Some(segment) => Some((group, segment)),
        },
    }
}

/// For each logical segment the places of the groups that it is in. A place may stand there several times.
pub(crate) fn membership_of(
    alloc: Global,
    segments: &LogicalSegments<'_>,
    names: &GroupNames<'_>,
    members: &[Member<'_>],
) -> Result<Vec<Vec<usize>>, NoMemory>
    requires apart { AllPairs (λ a b. bytes_eq a b ≡ false) names.now }
    ensures { IfOk result (λ lists. AreGroupsOf (is_member (map member_shown members.now)) names.now (heads_of segments.now)
        (map (λ v. v.items) lists.items)) }
{
    let mut lists = empty_lists(alloc, segments.heads().len())?;
    for member in members {
        if let Some((group, segment)) = places_of(segments, names, member) {
            lists[segment].push(group)?;
        }
    }
    Ok(lists)
}

/// The groups of one logical segment.
pub(crate) fn groups_at<'a>(groups: &'a [Vec<usize>], segment: usize) -> &'a [usize]
    requires { segment < length groups.now }
    ensures { result.now ≡ get_or (map (λ v. v.items) groups.entry.now) segment [] }
{
    groups[segment].as_slice()
}
