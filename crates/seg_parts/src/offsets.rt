//! Where the parts of one logical segment stand.

ghost use Rattle.std.specs.Prelude.{◌≡◌, ◌<◌, ◌≤◌, ◌+◌, ◌^◌, map};
ghost use Rattle.std.specs.Int.{next_multiple_of};
ghost use Rattle.link_model.specs.declared.limits.TheConstants.{MAX_MEMORY};
ghost use Rattle.link_model.specs.Parts as parts;
ghost use Rattle.link_model.specs.Rows as rules;
ghost use Rattle.seg_parts.specs.Parts.{shown};
ghost use Rattle.seg_parts.specs.Offsets.{limited, start_of, end_of};

use crate::parts::Part;
use link_model::{MAX_MEMORY, alignment_len};
use obj_types::COMBINE_COMMON;

/// The bytes of an alignment of SEGDEF, from 1 to 4,096.
pub fn alignment_of(align: u8) -> u32
    ensures value { result ≡ parts.alignment align }
    ensures least { 1 ≤ result }
    ensures most { result ≤ 4096 }
{
    alignment_len(align)
}

/// The least multiple of `len` from `at` on.
pub fn next_multiple(at: u32, len: u32) -> u64
    requires least { 1 ≤ len }
    requires most { len ≤ 4096 }
    ensures value { result ≡ next_multiple_of at len }
    ensures above { at ≤ result }
    ensures below { result < at + 4096 }
{
    u64::from(at).next_multiple_of(u64::from(len))
}

// An end, unless it passes 16 MiB.
fn within(end: u64) -> Option<u32>
    ensures { result ≡ limited end }
{
    if end > u64::from(MAX_MEMORY) {
        None
    } else {
        Some(end as u32)
    }
}

fn part_end(at: u32, part: &Part<'_>) -> u64
    ensures { result ≡ rules.aligned at (shown part.now) + part.now.len }
{
    next_multiple(at, alignment_of(part.align)) + u64::from(part.len)
}

/// The end of parts that stand one after another from `at` on, unless it passes 16 MiB.
pub fn end_of_parts(at: u32, parts: &[Part<'_>]) -> Option<u32>
    requires { at ≤ MAX_MEMORY }
    ensures { result ≡ limited (rules.end_of_parts at (map shown parts.now)) }
{
    let mut end = at;
    for part in parts {
        match within(part_end(end, part)) {
            None => return None,
            Some(next) => end = next,
        }
    }
    Some(end)
}

fn greatest_alignment(parts: &[Part<'_>]) -> u32
    ensures value { result ≡ rules.greatest_alignment (map shown parts.now) }
    ensures least { 1 ≤ result }
    ensures most { result ≤ 4096 }
{
    let mut greatest = 1;
    for part in parts {
        greatest = u32::max(greatest, alignment_of(part.align));
    }
    greatest
}

fn longest(parts: &[Part<'_>]) -> u32
    ensures { result ≡ rules.longest (map shown parts.now) }
{
    let mut longest = 0;
    for part in parts {
        longest = u32::max(longest, part.len);
    }
    longest
}

/// Whether a part is of combine type common.
pub fn is_common(part: &Part<'_>) -> bool
    ensures { result ≡ parts.is_common (shown part.now) }
{
    part.combine == COMBINE_COMMON
}

/// The start of a logical segment of these parts, after what ends at `at`. Common parts share it.
pub(crate) fn segment_start(at: u32, head: &Part<'_>, parts: &[Part<'_>]) -> u64
    ensures value { result ≡ start_of at (shown head.now) (map shown parts.now) }
    ensures below { result < at + 4096 }
{
    if is_common(head) {
        next_multiple(at, greatest_alignment(parts))
    } else {
        next_multiple(at, alignment_of(head.align))
    }
}

/// The end of a logical segment from its start, at least so many bytes after it, unless it passes 16 MiB.
pub(crate) fn segment_end(
    start: u32,
    head: &Part<'_>,
    parts: &[Part<'_>],
    least: u32,
) -> Option<u32>
    requires { start ≤ MAX_MEMORY }
    ensures { result ≡ limited (end_of start (shown head.now) (map shown parts.now) least) }
{
    let shortest = u64::from(start) + u64::from(least);
    if is_common(head) {
        within(u64::max(u64::from(start) + u64::from(longest(parts)), shortest))
    } else {
        match end_of_parts(start, parts) {
            None => None,
            Some(end) => within(u64::max(u64::from(end), shortest)),
        }
    }
}
