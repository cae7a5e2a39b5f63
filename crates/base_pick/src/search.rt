//! The search for a free place of an arena.

ghost use Rattle.std.specs.Prelude.{◌≡◌, ◌%◌, ◌≤◌, ◌+◌, ◌*◌, ◌/◌, ◌<◌, ◌^◌, find, max, IfSome};
ghost use Rattle.std.specs.List.{list_all};
ghost use Rattle.std.specs.List.Sorted.{IsNonDecreasingBy};
ghost use Rattle.base_pick.specs.declared.occupied.AddressRange.{AddressRange};
ghost use Rattle.lx_types.specs.Addresses.{room};
ghost use Rattle.base_pick.specs.Places as places;
ghost use Rattle.base_pick.specs.Places.{is_place, bases_in, place_of, are_apart};

use crate::AddressRange;
use lx_types::{BASE_UNIT, ObjHead};

/// The room that an object of this size takes.
pub fn room_of(size: u32) -> u64
    ensures { result ≡ room size }
{
    whole_units(u64::from(size.max(1)))
}

/// The least multiple of 65,536 that is no less.
fn whole_units(size: u64) -> u64
    requires { size < 2 ^ 63 }
    ensures { result ≡ (size + 65535) / 65536 * 65536 }
{
    size.div_ceil(u64::from(BASE_UNIT)) * u64::from(BASE_UNIT)
}

/// Whether an object may stand at a base beside these ranges.
fn may_stand(arena: AddressRange, ranges: &[AddressRange], size: u32, base: u32) -> bool
    ensures { result ≡ is_place arena ranges.now size base }
{
    let to = u64::from(base) + room_of(size);
    base % BASE_UNIT == 0
        && arena.from <= base
        && to <= u64::from(arena.to)
        && is_apart(range_at(base, size), ranges)
}

/// Whether a range meets none of the others.
fn is_apart(range: AddressRange, others: &[AddressRange]) -> bool
    ensures { result ≡ list_all (are_apart range) others.now }
{
    others
        .iter()
        .all(|other| range.to <= other.from || other.to <= range.from)
}

/// The least base from this one on at which so much room does not meet the range.
fn base_beside(base: u64, room: u64, range: AddressRange) -> u64
    requires base { base < 2 ^ 33 }
    requires room { room < 2 ^ 33 }
    ensures few { result < 2 ^ 33 }
    ensures met { range.from < base + room → result ≡ max base ((range.to + 65535) / 65536 * 65536) }
    ensures apart { base + room ≤ range.from → result ≡ base }
{
    if u64::from(range.from) < base + room {
        base.max(whole_units(u64::from(range.to)))
    } else {
        base
    }
}

/// The least base of the arena at which an object may stand. The ranges rise by where they begin.
fn least_place(arena: AddressRange, ranges: &[AddressRange], size: u32) -> Option<u32>
    requires aligned { arena.from % BASE_UNIT ≡ 0 }
    requires rising { IsNonDecreasingBy (λ (range : AddressRange). range.from) ranges.now }
    ensures least { result ≡ find (is_place arena ranges.now size) (bases_in arena) }
    ensures within { IfSome result (λ base. base + room size ≤ arena.to) }
{
    let room = room_of(size);
    let mut base = u64::from(arena.from);
    for range in ranges {
        base = base_beside(base, room, *range);
    }
    if base + room <= u64::from(arena.to) {
        Some(base as u32)
    } else {
        None
    }
}

/// What an object of this size takes at a base.
pub fn range_at(base: u32, size: u32) -> AddressRange
    requires { base + room size < 2 ^ 32 }
    ensures { result ≡ places.range_at base size }
{
    AddressRange {
        from: base,
        to: base + room_of(size) as u32,
    }
}

/// The place of an object beside these ranges.
pub fn place_for(arena: AddressRange, ranges: &[AddressRange], object: &ObjHead) -> Option<u32>
    requires aligned { arena.from % BASE_UNIT ≡ 0 }
    requires rising { IsNonDecreasingBy (λ (range : AddressRange). range.from) ranges.now }
    ensures place { result ≡ place_of arena ranges.now object.now }
    ensures within { IfSome result (λ base. base + room object.now.size ≤ arena.to) }
{
    if may_stand(arena, ranges, object.size, object.base) {
        Some(object.base)
    } else {
        least_place(arena, ranges, object.size)
    }
}
