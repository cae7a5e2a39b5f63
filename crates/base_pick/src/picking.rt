//! The bases of a module's objects.

ghost use Rattle.std.specs.Prelude.{◌≡◌, ◌+◌, ◌%◌, ◌^◌, ◌<◌, ◌∷◌, IfSome, Ok, Err, [], true};
ghost use Rattle.std.specs.List.Sorted.{IsPermutation, IsNonDecreasingBy};
ghost use Rattle.lx_types.specs.declared.limits.TheConstants.{BASE_UNIT};
ghost use Rattle.lx_types.specs.Answers.{Answers, if_said};
ghost use Rattle.base_pick.specs.declared.occupied.AddressRange.{AddressRange};
ghost use Rattle.base_pick.specs.Places.{places_from, places_of, private_arena, shared_arena};

use crate::search::{place_for, range_at};
use crate::{AddressRange, Occupied};
use lx_types::{Fail, Module, ObjHead, PRIVATE_FROM, SHARED_END, SHARED_FROM};
use std::alloc::Global;

/// An object has no place in its arena: its number, from 1, and its size in bytes.
#[derive(Clone, Copy, Drop)]
pub struct ArenaFull {
    pub object: u32,
    pub size: u32,
}

/// Where the objects of programs stand.
const PRIVATE_ARENA: AddressRange = AddressRange {
    from: PRIVATE_FROM,
    to: SHARED_FROM,
};

/// Where the objects of libraries stand.
const SHARED_ARENA: AddressRange = AddressRange {
    from: SHARED_FROM,
    to: SHARED_END,
};

/// Whether the ranges are in the order in which they begin. Mostly they are, since a place is taken after those that are.
fn are_in_order(ranges: &[AddressRange]) -> bool
    ensures { result ≡ true → IsNonDecreasingBy (λ (range : AddressRange). range.from) ranges.now }
{
    ranges.is_sorted_by_key(|range| range.from)
}

/// Puts the ranges in the order in which they begin.
fn put_in_order(ranges: &mut Vec<AddressRange>)
    ensures moved { IsPermutation ranges.old.items ranges.new.items }
    ensures rising { IsNonDecreasingBy (λ (range : AddressRange). range.from) ranges.new.items }
{
    if !are_in_order(ranges) {
        ranges.sort_unstable_by_key(|range| range.from);
    }
}

/// That the object after so many has no place. A number past 32 bits is want of memory.
fn full_at(count: usize, object: &ObjHead) -> Fail<ArenaFull>
    requires { count < 2 ^ 63 }
    ensures { IfSome (if_said result) (λ full. full ≡ record { object = count + 1; size = object.now.size }) }
{
    match u32::try_from(count + 1) {
        Ok(number) => Fail::Said(ArenaFull {
            object: number,
            size: object.size,
        }),
        Err(_) => Fail::NoMemory,
    }
}

/// Places the one object of a module beside what is occupied, which is looked at as it stands.
fn place_only(
    alloc: Global,
    arena: AddressRange,
    occupied: &[AddressRange],
    object: &ObjHead,
) -> Result<Vec<u32>, Fail<ArenaFull>>
    requires aligned { arena.from % BASE_UNIT ≡ 0 }
    requires rising { IsNonDecreasingBy (λ (range : AddressRange). range.from) occupied.now }
    ensures { Answers result
        (λ bases. places_from arena occupied.now 1 (object.now ∷ []) ≡ Ok bases.items)
        (λ full. places_from arena occupied.now 1 (object.now ∷ []) ≡ Err full) }
{
    match place_for(arena, occupied, object) {
        Some(base) => Ok(Vec::from_array(alloc, [base])?),
        None => Err(full_at(0, object)),
    }
}

/// Places the objects, one after another, beside what is occupied.
fn place_each(
    alloc: Global,
    arena: AddressRange,
    occupied: &[AddressRange],
    objects: &[ObjHead],
) -> Result<Vec<u32>, Fail<ArenaFull>>
    requires { arena.from % BASE_UNIT ≡ 0 }
    ensures { Answers result
        (λ bases. places_from arena occupied.now 1 objects.now ≡ Ok bases.items)
        (λ full. places_from arena occupied.now 1 objects.now ≡ Err full) }
{
    let mut ranges = Vec::with_capacity(alloc, occupied.len() + objects.len())?;
    ranges.extend_from_slice(occupied)?;
    let mut bases = Vec::with_capacity(alloc, objects.len())?;
    for object in objects {
        put_in_order(&mut ranges);
        let Some(base) = place_for(arena, &ranges, object) else {
            return Err(full_at(bases.len(), object));
        };
        ranges.push(range_at(base, object.size))?;
        bases.push(base)?;
    }
    Ok(bases)
}

/// Places the objects beside what is occupied. Most modules have one object, and what is occupied is mostly in order.
fn place_all(
    alloc: Global,
    arena: AddressRange,
    occupied: &[AddressRange],
    objects: &[ObjHead],
) -> Result<Vec<u32>, Fail<ArenaFull>>
    requires { arena.from % BASE_UNIT ≡ 0 }
    ensures { Answers result
        (λ bases. places_from arena occupied.now 1 objects.now ≡ Ok bases.items)
        (λ full. places_from arena occupied.now 1 objects.now ≡ Err full) }
{
    match objects {
        [only] if are_in_order(occupied) => place_only(alloc, arena, occupied, only),
        _ => place_each(alloc, arena, occupied, objects),
    }
}

/// The bases of a module's objects, in their order: each its linked base where that is a multiple of
/// 65,536 in its arena and free, otherwise the least free multiple. A program's objects stand from
/// 00010000h to 0FFFFFFFh, a library's from 10000000h to 1FFFFFFFh, beside what is occupied there. The
/// first object for which there is no place is refused.
///
/// It takes time that grows as objects times occupied ranges and their logarithm; an arena has room for 4,096
/// of both.
/// ("32-bit Linear eXecutable Module Format": "Object Table". The arenas and the choice are this loader's own.)
pub fn pick(alloc: Global, occupied: &Occupied, m: &Module) -> Result<Vec<u32>, Fail<ArenaFull>>
    ensures { Answers result
        (λ bases. places_of occupied.now m.now ≡ Ok bases.items)
        (λ full. places_of occupied.now m.now ≡ Err full) }
{
    if m.is_library() {
        place_all(alloc, SHARED_ARENA, occupied.ranges(), m.objects())
    } else {
        place_all(alloc, PRIVATE_ARENA, &[], m.objects())
    }
}
