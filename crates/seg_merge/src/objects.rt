//! The objects that logical segments make.

ghost use Rattle.std.specs.Prelude.{◌≡◌, map, IfOk};
ghost use Rattle.link_model.specs.Order.{same_object};
ghost use Rattle.seg_parts.specs.LogicalSegments.{places};
ghost use Rattle.seg_parts.specs.Objects.{object_shown};
ghost use Rattle.seg_merge.specs.Ordered.{ordered_shown};
ghost use Rattle.seg_merge.specs.Laid.{keys_of, flags_of_objects};

use crate::ordered::OrderedSegment;
use lx_types::NoMemory;
use seg_parts::{ObjectName, object_places};
use std::alloc::Global;

fn names_of<'a>(
    alloc: Global,
    ordered: &[OrderedSegment<'a>],
) -> Result<Vec<ObjectName<'a>>, NoMemory>
    ensures { IfOk result (λ names. map object_shown names.items ≡ map (λ o. object_shown o.object) ordered.entry.now) }
{
    let mut names = Vec::new(alloc);
    for segment in ordered {
        names.push(segment.object)?;
    }
    Ok(names)
}

/// The object of each logical segment, from 0. Objects are numbered in the order of their first logical segments.
pub fn objects_of(alloc: Global, ordered: &[OrderedSegment<'_>]) -> Result<Vec<usize>, NoMemory>
    ensures { IfOk result (λ objects. objects.items ≡ places same_object (keys_of (map ordered_shown ordered.now))) }
{
    let names = names_of(alloc, ordered)?;
    object_places(alloc, names.as_slice())
}

/// The flags of each object, which are those of its first logical segment.
pub fn flags_of_objects(
    alloc: Global,
    ordered: &[OrderedSegment<'_>],
    objects: &[usize],
) -> Result<Vec<u32>, NoMemory>
    requires { objects.now ≡ places same_object (keys_of (map ordered_shown ordered.now)) }
    ensures { IfOk result (λ flags. flags.items ≡ flags_of_objects (map ordered_shown ordered.now)) }
{
    let mut flags = Vec::new(alloc);
    for (place, segment) in ordered.iter().enumerate() {
        if objects[place] == flags.len() {
            flags.push(segment.flags)?;
        }
    }
    Ok(flags)
}
