//! Logical segments in the order in which they stand, each with all that is known of it.

ghost use Rattle.std.specs.Prelude.{◌≡◌, ◌<◌, map, length, get_or, [], IfOk};
ghost use Rattle.std.specs.List.{All};
ghost use Rattle.seg_parts.specs.Parts.{shown};
ghost use Rattle.seg_merge.specs.Ordered.{ordered_shown, table_at};

use lx_types::NoMemory;
use seg_parts::{ObjectName, Part};
use std::alloc::Global;

/// A logical segment in the order in which they stand.
#[derive(Clone, Copy)]
pub struct OrderedSegment<'a> {
    /// From 0, in the order of first parts.
    pub number: usize,
    pub head: Part<'a>,
    /// The object that it is in.
    pub object: ObjectName<'a>,
    /// As in an object table.
    pub flags: u32,
    pub parts: &'a [Part<'a>],
}

/// What is known of each logical segment, by its number.
pub struct Tables<'a> {
    /// The first parts.
    pub heads: Vec<Part<'a>>,
    /// The places of its groups.
    pub groups: Vec<Vec<usize>>,
    /// As in an object table.
    pub flags: Vec<u32>,
    pub objects: Vec<ObjectName<'a>>,
    pub parts: Vec<Vec<Part<'a>>>,
}

// Dropped by a call, as lists are (`Seq`).
impl Drop for Tables<'_> {
    fn drop(self) {
        let Tables {
            heads,
            groups,
            flags,
            objects,
            parts,
        } = self;
        drop(heads);
        drop(groups);
        drop(flags);
        drop(objects);
        drop(parts);
    }
}

fn parts_at<'a>(lists: &'a [Vec<Part<'a>>], number: usize) -> &'a [Part<'a>]
    requires { number < length lists.now }
    ensures { map shown result.now ≡ get_or (map (λ v. map shown v.items) lists.entry.now) number [] }
{
    lists[number].as_slice()
}

fn segment_at<'a>(tables: &'a Tables<'a>, number: usize) -> OrderedSegment<'a>
    requires heads { number < length tables.now.heads.items }
    requires flags { number < length tables.now.flags.items }
    requires objects { number < length tables.now.objects.items }
    requires parts { number < length tables.now.parts.items }
    ensures { ordered_shown result ≡ table_at tables.entry.now number }
{
    OrderedSegment {
        number,
        head: tables.heads[number],
        object: tables.objects[number],
        flags: tables.flags[number],
        parts: parts_at(tables.parts.as_slice(), number),
    }
}

/// The logical segments with these numbers, in this order.
pub fn ordered_of<'a>(
    alloc: Global,
    tables: &'a Tables<'a>,
    order: &[usize],
) -> Result<Vec<OrderedSegment<'a>>, NoMemory>
    requires below { All (λ n. n < length tables.now.heads.items) order.now }
    requires flags { length tables.now.flags.items ≡ length tables.now.heads.items }
    requires objects { length tables.now.objects.items ≡ length tables.now.heads.items }
    requires parts { length tables.now.parts.items ≡ length tables.now.heads.items }
    ensures { IfOk result (λ ordered. map ordered_shown ordered.items ≡ map (table_at tables.entry.now) order.now) }
{
    let mut ordered = Vec::new(alloc);
    for number in order {
        ordered.push(segment_at(tables, *number))?;
    }
    Ok(ordered)
}
