//! Where the logical segments of a link stand, in which objects.

ghost use Rattle.std.specs.Prelude.{◌≡◌, ◌<◌, ◌≤◌, ◌+◌, None, Some, length, map, position, slice_get, option_map, option_copied, IfOk};
ghost use Rattle.std.specs.List.{All, list_any, zip};
ghost use Rattle.std.specs.Option.{option_and_then};
ghost use Rattle.lx_types.specs.Answers.{Answers};
ghost use Rattle.link_model.specs.Parts as rules;
ghost use Rattle.seg_parts.specs.Parts.{shown};
ghost use Rattle.seg_parts.specs.Placing.{placed_shown};
ghost use Rattle.link_model.specs.LayoutRefusals.{too_large_in};
ghost use Rattle.seg_merge.specs.Ordered.{ordered_shown};
ghost use Rattle.seg_merge.specs.Laid.{first_base_of, stack_row_in, rows_in, AreLaid};

use crate::objects::{flags_of_objects, objects_of};
use crate::ordered::OrderedSegment;
use crate::units::units_of;
use link_model::{LaidObject, LayRefusal};
use lx_types::{Fail, NoMemory, Seq};
use obj_types::{DefFile, ModKind};
use seg_parts::{Placed, any_stack, laid_objects, rows_of};
use std::alloc::Global;

/// Logical segments in order, in their objects.
#[derive(Drop)]
pub struct Laid<'a> {
    pub rows: Vec<Placed<'a>>,
    /// The objects, which are numbered from 1: sizes and linked bases in bytes, and object flags.
    pub objects: Seq<LaidObject>,
    /// The object and the offset of the stack's end.
    pub stack: Option<(u32, u32)>,
}

// The linked base of the first object: BASE, or the begin of the arena in which programs or libraries stand.
fn first_base(def: &DefFile) -> u32
    ensures { result ≡ first_base_of def.now }
{
    match def.base {
        Some(base) => base,
        None => match def.kind {
            ModKind::Program => 0x1_0000,
            ModKind::Library => 0x1000_0000,
        },
    }
}

// The size of each object with its flags.
fn sizes_of(alloc: Global, sizes: &[u32], flags: &[u32]) -> Result<Vec<(u32, u32)>, NoMemory>
    requires { length flags.now ≡ length sizes.now }
    ensures { IfOk result (λ pairs. pairs.items ≡ zip sizes.now flags.now) }
{
    let mut pairs = Vec::new(alloc);
    for (place, size) in sizes.iter().enumerate() {
        pairs.push((*size, flags[place]))?;
    }
    Ok(pairs)
}

fn first_stack(ordered: &[OrderedSegment<'_>]) -> Option<usize>
    ensures { result ≡ position (λ o. list_any (λ p. rules.is_stack (shown p)) o.parts.now) ordered.now }
{
    ordered.iter().position(|segment| any_stack(segment.parts))
}

fn row_at<'a>(rows: &'a [Placed<'a>], place: usize) -> Option<&'a Placed<'a>>
    ensures { option_copied result ≡ slice_get rows.entry.now place }
{
    rows.get(place)
}

// The object, from 1, and the end of the stack segment.
fn stack_end(ordered: &[OrderedSegment<'_>], rows: &[Placed<'_>]) -> Option<(u32, u32)>
    requires { All (λ r. r.object < 1024) rows.now }
    ensures { result ≡ option_map (λ r. (r.object, r.end)) (stack_row_in (map ordered_shown ordered.now) (map placed_shown rows.now)) }
{
    match first_stack(ordered) {
        None => None,
        Some(place) => match row_at(rows, place) {
            None => None,
            Some(row) => Some((row.object as u32 + 1, row.end)),
        },
    }
}

/// Where these logical segments stand. The first that passes a limit is `TooLarge`.
pub fn lay_ordered<'a>(
    alloc: Global,
    def: &DefFile,
    ordered: &[OrderedSegment<'a>],
) -> Result<Laid<'a>, Fail<LayRefusal>>
    requires { first_base_of def.now ≤ 0x1FFF0000 }
    ensures { Answers result
        (AreLaid def.now (map ordered_shown ordered.entry.now))
        (λ refusal. too_large_in (rows_in def.now.stack (map ordered_shown ordered.entry.now)) ≡ Some refusal) }
{
    let places = objects_of(alloc, ordered)?;
    let flags = flags_of_objects(alloc, ordered, places.as_slice())?;
    let units = units_of(alloc, ordered, places.as_slice(), def.stack)?;
    let rows = rows_of(alloc, units.as_slice(), flags.len())?;
    let sizes = sizes_of(alloc, rows.ends.as_slice(), flags.as_slice())?;
    let objects = laid_objects(alloc, first_base(def), sizes.as_slice())?;
    let stack = stack_end(ordered, rows.rows.as_slice());
    Ok(Laid {
        rows: rows.rows,
        objects,
        stack,
    })
}
