//! Which logical segments make one object, and where the objects stand.

ghost use Rattle.std.specs.Prelude.{◌≡◌, ◌≤◌, ◌+◌, length, map, sum_by, if◌then◌else◌, IfOk};
ghost use Rattle.std.specs.Option.{option_map_or};
ghost use Rattle.obj_types.specs.declared.definition.ModKind.{ModKind};
ghost use Rattle.link_model.specs.declared.limits.TheConstants.{MAX_MEMORY};
ghost use Rattle.link_model.specs.declared.keys.ObjectKey.TheVariants as keys;
ghost use Rattle.link_model.specs.Layout as rules;
ghost use Rattle.link_model.specs.Order.{same_object};
ghost use Rattle.link_model.specs.Parts as parts;
ghost use Rattle.seg_parts.specs.LogicalSegments.{places};
ghost use Rattle.seg_parts.specs.Parts.{shown};
ghost use Rattle.seg_parts.specs.Objects.{object_shown, key_of};

use crate::logical_segments::{SegmentName, name_of};
use crate::parts::Part;
use indexmap::IndexSet;
use link_model::LaidObject;
use lx_types::{Name, NoMemory, Seq};
use std::alloc::Global;

/// What tells objects apart.
#[derive(Clone, Copy, PartialEq, Eq, Hash)]
pub enum ObjectName<'a> {
    /// The logical segments of a group.
    Group { name: &'a [u8] },
    /// The 32-bit ones in no group whose flags are equal.
    Wide { flags: u32 },
    /// A 16-bit one in no group.
    Narrow { segment: SegmentName<'a> },
}

/// The object of a logical segment with this first part, first group and flags.
pub fn object_name<'a>(head: &Part<'a>, group: Option<&'a Name>, flags: u32) -> ObjectName<'a>
    ensures { object_shown result ≡ key_of (shown head.now) group.entry flags }
{
    match group {
        Some(name) => ObjectName::Group { name: name.bytes() },
        None => {
            if head.wide {
                ObjectName::Wide { flags }
            } else {
                ObjectName::Narrow {
                    segment: name_of(head),
                }
            }
        }
    }
}

/// The place, from 0, of each of these objects among them by first appearance.
pub fn object_places(alloc: Global, objects: &[ObjectName<'_>]) -> Result<Vec<usize>, NoMemory>
    ensures { IfOk result (λ found. found.items ≡ places same_object (map object_shown objects.now)) }
{
    let mut names = IndexSet::new(alloc);
    let mut found = Vec::new(alloc);
    for object in objects {
        found.push(names.insert_full(*object)?.0)?;
    }
    Ok(found)
}

fn room(size: u32) -> u32
    requires { size ≤ MAX_MEMORY }
    ensures value { result ≡ rules.room size }
    ensures most { result ≤ size + 65536 }
{
    (u32::max(1, size) + 0xFFFF) / 0x1_0000 * 0x1_0000
}

/// Objects of these sizes and flags from a linked base on, each after the room of the one before, which is at least
/// one byte, rounded up to 65,536.
pub fn laid_objects(
    alloc: Global,
    first: u32,
    sizes: &[(u32, u32)],
) -> Result<Seq<LaidObject>, NoMemory>
    requires first { first ≤ 0x1FFF0000 }
    requires few { length sizes.now ≤ 1024 }
    requires together { sum_by (λ q. q.0) sizes.now ≤ MAX_MEMORY }
    ensures { IfOk result (λ objects. objects ≡ rules.placed_from first sizes.now) }
{
    let mut base = first;
    let mut objects = Seq::new(alloc);
    for pair in sizes {
        objects.push(LaidObject {
            size: pair.0,
            base,
            flags: pair.1,
        })?;
        base += room(pair.0);
    }
    Ok(objects)
}
