//! Where the segments, the communals and the groups of a link stand, from the rows of its logical segments.

ghost use Rattle.std.specs.Prelude.{map, IfOk};
ghost use Rattle.link_model.specs.Link.{Link};
ghost use Rattle.link_types.specs.Places.{ArePlaces};
ghost use Rattle.seg_merge.specs.Standing.{StandsSo};

use crate::in_order::StandingSegments;
use crate::placing_groups::{groups_of, objects_of};
use crate::placing_parts::part_places;
use crate::placing_spots::{commons_of, spots_of};
use crate::splits::flags_of_groups;
use link_types::Places;
use lx_types::NoMemory;
use obj_types::ObjModule;
use seg_parts::Placed;
use std::alloc::Global;

/// The places of a link of these modules and parts. `rows` are its logical segments in their objects and `groups` the
/// places of their groups among the names, both by the numbers of the logical segments.
pub(crate) fn places_of(
    alloc: Global,
    modules: &[&ObjModule],
    standing: &StandingSegments<'_, '_>,
    rows: &[Placed<'_>],
    groups: &[Vec<usize>],
) -> Result<Places, NoMemory>
    requires { (l : Link) × StandsSo l (map (λ m. m.now) modules.now) standing.now.segments rows.now standing.now.names (map (λ v. v.items) groups.now) }
    ensures { IfOk result (λ places. (l : Link) →
        StandsSo l (map (λ m. m.now) modules.now) standing.now.segments rows.now standing.now.names (map (λ v. v.items) groups.now)
        → ArePlaces l places) }
{
    let places = part_places(alloc, &standing.segments, rows)?;
    let numbers = objects_of(alloc, rows)?;
    // A group's object is that of its first logical segment, told as flags are.
    let objects = flags_of_groups(
        alloc,
        groups,
        numbers.as_slice(),
        standing.names.names().len(),
    )?;
    Ok(Places {
        spots: spots_of(alloc, modules, places.as_slice())?,
        commons: commons_of(alloc, standing.segments.parts(), places.as_slice())?,
        groups: groups_of(alloc, modules, &standing.names, objects.as_slice())?,
    })
}
