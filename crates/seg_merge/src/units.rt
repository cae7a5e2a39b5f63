//! Logical segments whose objects and least lengths are known.

ghost use Rattle.std.specs.Prelude.{◌≡◌, ◌==◌, ℕ, map, length, get_or, option_map, option_copied, find, if◌then◌else◌, IfOk};
ghost use Rattle.std.specs.List.{list_any, enumerate_from};
ghost use Rattle.link_model.specs.Parts as rules;
ghost use Rattle.seg_parts.specs.Parts.{shown};
ghost use Rattle.seg_parts.specs.Placing.{unplaced_shown};
ghost use Rattle.seg_merge.specs.Ordered.{ordered_shown};
ghost use Rattle.seg_merge.specs.Laid.{least_of, unit_at, stack_number};

use crate::ordered::OrderedSegment;
use lx_types::NoMemory;
use seg_parts::{Unplaced, any_stack};
use std::alloc::Global;

fn stack_segment<'a>(ordered: &'a [OrderedSegment<'a>]) -> Option<&'a OrderedSegment<'a>>
    ensures { option_copied result ≡ find (λ o. list_any (λ p. rules.is_stack (shown p)) o.parts.now) ordered.entry.now }
{
    ordered.iter().find(|segment| any_stack(segment.parts))
}

// The number of the stack segment: the first that has a part of combine type stack.
fn stack_number(ordered: &[OrderedSegment<'_>]) -> Option<usize>
    ensures { result ≡ stack_number (map ordered_shown ordered.now) }
{
    match stack_segment(ordered) {
        None => None,
        Some(segment) => Some(segment.number),
    }
}

fn least_of(stack: Option<usize>, number: usize, size: u32) -> u32
    ensures { result ≡ least_of stack size number }
{
    match stack {
        None => 0,
        Some(other) => { if number == other { size } else { 0 } }
    }
}

/// The logical segments in these objects, numbered from 0. The stack segment is at least `size` bytes long.
pub fn units_of<'a>(
    alloc: Global,
    ordered: &[OrderedSegment<'a>],
    objects: &[usize],
    size: u32,
) -> Result<Vec<Unplaced<'a>>, NoMemory>
    requires { length objects.now ≡ length ordered.now }
    ensures objects { IfOk result (λ units. map (λ u. u.object) units.items ≡ objects.now) }
    ensures units { IfOk result (λ units. map unplaced_shown units.items
        ≡ map (unit_at objects.now (stack_number (map ordered_shown ordered.entry.now)) size) (enumerate_from 0 (map ordered_shown ordered.entry.now))) }
{
    let stack = stack_number(ordered);
    let mut units = Vec::new(alloc);
    for (place, segment) in ordered.iter().enumerate() {
        units.push(Unplaced {
            head: segment.head,
            object: objects[place],
            parts: segment.parts,
            least: least_of(stack, segment.number, size),
        })?;
    }
    Ok(units)
}
