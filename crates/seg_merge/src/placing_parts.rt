//! The places of all parts of a link, in order.

ghost use Rattle.std.specs.Prelude.{◌≡◌, ◌<◌, ◌≤◌, ◌+◌, Some, map, length, slice_get, if◌then◌else◌, IfOk};
ghost use Rattle.lx_types.specs.declared.limits.TheConstants.{MAX_OBJECTS};
ghost use Rattle.link_model.specs.declared.limits.TheConstants.{MAX_MEMORY};
ghost use Rattle.link_model.specs.Layout.{place_of_part};
ghost use Rattle.link_model.specs.Link.{Link};
ghost use Rattle.link_model.specs.Parts.{is_common};
ghost use Rattle.link_model.specs.Rows.{aligned};
ghost use Rattle.seg_parts.specs.Parts.{shown};
ghost use Rattle.seg_merge.specs.Placing.{ArePlacesOf};
ghost use Rattle.seg_merge.specs.Standing.{RowsStand};

use lx_types::NoMemory;
use seg_parts::{LogicalSegments, Part, Placed, alignment_of, is_common, next_multiple};
use std::alloc::Global;

fn starts_of(alloc: Global, rows: &[Placed<'_>]) -> Result<Vec<u32>, NoMemory>
    ensures { IfOk result (λ starts. starts.items ≡ map (λ r. r.start) rows.now) }
{
    let mut starts = Vec::new(alloc);
    for row in rows {
        starts.push(row.start)?;
    }
    Ok(starts)
}

// The least offset from `at` on that the part's alignment divides ("98h SEGDEF", alignment).
fn part_start(at: u32, part: &Part<'_>) -> u32
    requires { aligned at (shown part.now) ≤ MAX_MEMORY }
    ensures { result ≡ aligned at (shown part.now) }
{
    next_multiple(at, alignment_of(part.align)) as u32
}

// The offset of the next part of a logical segment whose parts so far end at `end`. Common parts share its start.
fn next_offset(head: &Part<'_>, end: u32, part: &Part<'_>) -> u32
    requires { (if is_common (shown head.now) then end else aligned end (shown part.now)) ≤ MAX_MEMORY }
    ensures { result ≡ (if is_common (shown head.now) then end else aligned end (shown part.now)) }
{
    if is_common(head) {
        end
    } else {
        part_start(end, part)
    }
}

// Where the part after one at this offset may stand.
fn end_after(head: &Part<'_>, offset: u32, part: &Part<'_>) -> u32
    requires { (if is_common (shown head.now) then offset else offset + part.now.len) ≤ MAX_MEMORY }
    ensures { result ≡ (if is_common (shown head.now) then offset else offset + part.now.len) }
{
    if is_common(head) {
        offset
    } else {
        offset + part.len
    }
}

/// The number, from 1, of a logical segment's object.
pub fn object_of(row: &Placed<'_>) -> u32
    requires { row.now.object < MAX_OBJECTS }
    ensures { result ≡ row.now.object + 1 }
{
    row.object as u32 + 1
}

// The row of the logical segment with a number.
fn row_at<'a, 'p>(rows: &'a [Placed<'p>], number: usize) -> &'a Placed<'p>
    requires { number < length rows.now }
    ensures { slice_get rows.entry.now number ≡ Some result.now }
{
    &rows[number]
}

/// The object and the offset in bytes of each part, in order ("98h SEGDEF", alignment and combine types). `rows` are the
/// logical segments by their numbers.
pub fn part_places(
    alloc: Global,
    segments: &LogicalSegments<'_>,
    rows: &[Placed<'_>],
) -> Result<Vec<(u32, u32)>, NoMemory>
    requires { (l : Link) × RowsStand l segments.now rows.now }
    ensures { IfOk result (λ places. (l : Link) → RowsStand l segments.now rows.now → ArePlacesOf (place_of_part l) segments.now places.items) }
{
    let mut ends = starts_of(alloc, rows)?;
    let mut places = Vec::new(alloc);
    for (place, part) in segments.parts().iter().enumerate() {
        let number = segments.numbers()[place];
        let row = row_at(rows, number);
        let offset = next_offset(&row.head, ends[number], part);
        places.push((object_of(row), offset))?;
        ends[number] = end_after(&row.head, offset, part);
    }
    Ok(places)
}
