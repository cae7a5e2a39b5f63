//! Logical segments in the order in which they stand, by their numbers, and what is known of each.

ghost use Rattle.std.specs.Prelude.{◌≡◌, ◌≤◌, ◌-◌, ◌++◌, map, bytes_eq, false, AllPairs, IfOk, OnOk};
ghost use Rattle.std.specs.List.{range_with_len};
ghost use Rattle.seg_parts.specs.Members.{member_shown};
ghost use Rattle.seg_merge.specs.InOrder.{AreTables};

use crate::membership::membership_of;
use crate::object_names::object_names_of;
use crate::ordered::Tables;
use crate::segment_parts::parts_of_segments;
use lx_types::NoMemory;
use obj_types::DefFile;
use seg_parts::{GroupNames, LogicalSegments, Member, flags_of};
use std::alloc::Global;

/// The logical segments of a link and the names of its groups.
pub struct StandingSegments<'a, 'b> {
    pub segments: LogicalSegments<'a>,
    pub names: GroupNames<'a>,
    /// The numbers of the logical segments, from 0, in the order in which they stand.
    pub order: &'b [usize],
}

// Dropped by a call, as lists are (`Seq`).
impl Drop for StandingSegments<'_, '_> {
    fn drop(self) {
        let StandingSegments {
            segments,
            names,
            order,
        } = self;
        drop(segments);
        drop(names);
        drop(order);
    }
}

/// Adds the numbers from one on and below another.
pub fn add_numbers(order: &mut Vec<usize>, from: usize, to: usize) -> Result<(), NoMemory>
    requires { from ≤ to }
    ensures { OnOk result (order.new.items ≡ order.old.items ++ range_with_len from (to - from)) }
{
    for number in from..to {
        order.push(number)?;
    }
    Ok(())
}

/// What is known of each of these logical segments.
pub fn tables_of<'a>(
    alloc: Global,
    def: &DefFile,
    segments: &LogicalSegments<'a>,
    names: &GroupNames<'a>,
    members: &[Member<'_>],
) -> Result<Tables<'a>, NoMemory>
    requires { AllPairs (λ a b. bytes_eq a b ≡ false) names.now }
    ensures { IfOk result (AreTables def.now segments.entry.now names.entry.now (map member_shown members.now)) }
{
    let mut heads = Vec::new(alloc);
    heads.extend_from_slice(segments.heads())?;
    let groups = membership_of(alloc, segments, names, members)?;
    let flags = flags_of(alloc, def, heads.as_slice())?;
    let objects = object_names_of(
        alloc,
        heads.as_slice(),
        groups.as_slice(),
        flags.as_slice(),
        names,
    )?;
    let parts = parts_of_segments(alloc, segments)?;
    Ok(Tables {
        heads,
        groups,
        flags,
        objects,
        parts,
    })
}
