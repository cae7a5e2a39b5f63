//! Where logical segments stand: one walk over them in order.

ghost use Rattle.std.specs.Prelude.{◌≡◌, ◌<◌, ◌≤◌, ◌+◌, [], None, Some, map, max, length, slice_index, slice_set, option_map, true, false, IfSome, IfOk};
ghost use Rattle.std.specs.List.{All, range_with_len};
ghost use Rattle.std.specs.Option.{IfNone};
ghost use Rattle.lx_types.specs.Answers.{Answers};
ghost use Rattle.link_model.specs.declared.limits.TheConstants.{MAX_MEMORY};
ghost use Rattle.link_model.specs.declared.refusals.LayRefusal.TheVariants.{TooLarge};
ghost use Rattle.link_model.specs.LayoutRefusals.{object_limit, too_large_in};
ghost use Rattle.link_model.specs.Rows.{end_in};
ghost use Rattle.seg_parts.specs.Parts.{shown};
ghost use Rattle.seg_parts.specs.Rows.{row_at, rows_later};
ghost use Rattle.seg_parts.specs.Placing.{unplaced_shown, span_shown, Adds, AreEnds, Places, StandIn};

use crate::offsets::{segment_end, segment_start};
use crate::parts::Part;
use link_model::{LayRefusal, MAX_MEMORY, MAX_NARROW_OBJECT};
use lx_types::{Fail, MAX_OBJECTS, Name, NoMemory};
use std::alloc::Global;

/// A logical segment that has no place yet.
#[derive(Clone, Copy)]
pub struct Unplaced<'a> {
    pub head: Part<'a>,
    /// From 0.
    pub object: usize,
    pub parts: &'a [Part<'a>],
    /// The least length in bytes.
    pub least: u32,
}

/// A logical segment in its object.
#[derive(Clone, Copy)]
pub struct Placed<'a> {
    pub head: Part<'a>,
    /// From 0.
    pub object: usize,
    pub start: u32,
    pub end: u32,
}

/// The ends of all objects, and their sum.
#[derive(Drop)]
struct Ends {
    ends: Vec<u32>,
    sum: u64,
}

fn limit_of(head: &Part<'_>) -> u32
    ensures value { result ≡ object_limit (shown head.now) }
    ensures most { result ≤ MAX_MEMORY }
{
    if head.wide {
        MAX_MEMORY
    } else {
        MAX_NARROW_OBJECT
    }
}

// The start and the end of a logical segment after what ends at `at`, unless it passes its object's limit.
fn span_of(at: u32, unit: &Unplaced<'_>) -> Option<(u32, u32)>
    requires { at ≤ MAX_MEMORY }
    ensures stands { IfSome result (λ s. (span_shown unit.now s ≡ row_at at (unplaced_shown unit.now))
        × (s.1 ≤ object_limit (shown unit.now.head)) × (s.1 ≤ MAX_MEMORY)) }
    ensures past { IfNone result (object_limit (shown unit.now.head) < (row_at at (unplaced_shown unit.now)).end) }
{
    let start = segment_start(at, &unit.head, unit.parts);
    if start > u64::from(MAX_MEMORY) {
        return None;
    }
    let start = start as u32;
    match segment_end(start, &unit.head, unit.parts, unit.least) {
        None => None,
        Some(end) => {
            if end > limit_of(&unit.head) {
                None
            } else {
                Some((start, end))
            }
        }
    }
}

impl Ends {
    // Makes an object at least so long.
    fn add(&mut self, object: usize, end: u32)
        requires object { object < length self.old.ends.items }
        requires within { slice_index self.old.ends.items object ≤ self.old.sum }
        requires few { self.old.sum ≤ MAX_MEMORY }
        ensures { Adds self.old.ends.items self.old.sum object end self.new.ends.items self.new.sum }
    {
        let last = self.ends[object];
        let longest = u32::max(last, end);
        self.ends[object] = longest;
        self.sum = self.sum - u64::from(last) + u64::from(longest);
    }
}

// Adds a logical segment, unless it passes a limit.
fn place<'a>(ends: &mut Ends, unit: &Unplaced<'a>) -> Option<Placed<'a>>
    requires object { unit.now.object < length ends.old.ends.items }
    requires within { slice_index ends.old.ends.items unit.now.object ≤ ends.old.sum }
    requires few { ends.old.sum ≤ MAX_MEMORY }
    ensures { Places ends.old unit.entry.now ends.new result }
{
    match span_of(ends.ends[unit.object], unit) {
        None => None,
        Some((start, end)) => {
            ends.add(unit.object, end);
            if ends.sum > u64::from(MAX_MEMORY) {
                return None;
            }
            if unit.object >= MAX_OBJECTS as usize {
                return None;
            }
            Some(Placed {
                head: unit.head,
                object: unit.object,
                start,
                end,
            })
        }
    }
}

/// Logical segments in their objects, in order, and the end of each object.
#[derive(Drop)]
pub struct Rows<'a> {
    pub rows: Vec<Placed<'a>>,
    pub ends: Vec<u32>,
}

fn no_ends(alloc: Global, count: usize) -> Result<Ends, NoMemory>
    ensures { IfOk result (AreEnds count []) }
{
    let mut ends = Vec::new(alloc);
    for _place in 0..count {
        ends.push(0)?;
    }
    Ok(Ends { ends, sum: 0 })
}

fn too_large(alloc: Global, name: &Name) -> Result<LayRefusal, NoMemory>
    ensures { IfOk result (λ r. r ≡ TooLarge name.now) }
{
    Ok(LayRefusal::TooLarge {
        seg: name.copied(alloc)?,
    })
}

/// Where these logical segments stand, in so many objects. The first that passes a limit is `TooLarge`.
pub fn rows_of<'a>(
    alloc: Global,
    units: &[Unplaced<'a>],
    count: usize,
) -> Result<Rows<'a>, Fail<LayRefusal>>
    requires { All (λ u. u.object < count) units.now }
    ensures { Answers result
        (λ r. StandIn count (map unplaced_shown units.entry.now) r)
        (λ refusal. too_large_in (rows_later [] (map unplaced_shown units.entry.now)) ≡ Some refusal) }
{
    let mut ends = no_ends(alloc, count)?;
    let mut rows = Vec::new(alloc);
    for unit in units {
        match place(&mut ends, unit) {
            None => return Err(Fail::Said(too_large(alloc, unit.head.name)?)),
            Some(row) => rows.push(row)?,
        }
    }
    Ok(Rows {
        rows,
        ends: ends.ends,
    })
}
