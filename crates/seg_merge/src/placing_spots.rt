//! The places of parts, by segments of modules and by communals.

ghost use Rattle.std.specs.Prelude.{◌≡◌, ◌+◌, ℕ, Option, map, length, filter, slice_get, nat_lt, if◌then◌else◌, IfOk};
ghost use Rattle.link_model.specs.Parts as rules;
ghost use Rattle.seg_parts.specs.Parts.{shown};
ghost use Rattle.seg_merge.specs.Placing.{ArePlacesOf, TakesPlaces, AreSpotsOf, comes_of_communal};

use link_model::Origin;
use lx_types::NoMemory;
use obj_types::{ObjModule, Seg};
use seg_parts::Part;
use std::alloc::Global;

// The place that stands at `next`, which goes on to the one after it.
fn next_place(places: &[(u32, u32)], next: &mut usize) -> Option<(u32, u32)>
    ensures place { result ≡ slice_get places.now next.old }
    ensures next { next.new ≡ (if nat_lt next.old (length places.now) then next.old + 1 else next.old) }
{
    match places.get(*next) {
        None => None,
        Some(place) => {
            *next += 1;
            Some(*place)
        }
    }
}

// The places of a module's segments: the next ones from `next` on, but none for debug segments.
fn spots_in(
    alloc: Global,
    segs: &[Seg],
    places: &[(u32, u32)],
    next: &mut usize,
) -> Result<Vec<Option<(u32, u32)>>, NoMemory>
    ensures { IfOk result (λ row. TakesPlaces segs.now places.now next.old next.new row.items) }
{
    let mut row = Vec::new(alloc);
    for seg in segs {
        if seg.debug {
            row.push(None)?;
        } else {
            row.push(next_place(places, next))?;
        }
    }
    Ok(row)
}

/// The places of the segments of these modules, by module and segment, where `places` begin with those of their
/// contributions.
pub fn spots_of(
    alloc: Global,
    modules: &[&ObjModule],
    places: &[(u32, u32)],
) -> Result<Vec<Vec<Option<(u32, u32)>>>, NoMemory>
    ensures { IfOk result (λ spots. AreSpotsOf (map (λ m. m.now) modules.now) places.now (map (λ v. v.items) spots.items)) }
{
    let mut next = 0;
    let mut spots = Vec::new(alloc);
    for object in modules {
        spots.push(spots_in(alloc, object.segs.as_slice(), places, &mut next)?)?;
    }
    Ok(spots)
}

fn is_communal(part: &Part<'_>) -> bool
    ensures { result ≡ comes_of_communal (shown part.now).origin }
{
    match part.origin {
        Origin::Communal { slot: _ } => true,
        Origin::Segment {
            module: _,
            index: _,
        }
        | Origin::OwnStack => false,
    }
}

/// The places of those parts that are communals, in order.
pub fn commons_of(
    alloc: Global,
    parts: &[Part<'_>],
    places: &[(u32, u32)],
) -> Result<Vec<(u32, u32)>, NoMemory>
    requires { length places.now ≡ length parts.now }
    ensures { IfOk result (λ commons. (place : rules.Part → Option (ℕ × ℕ)) → ArePlacesOf place (map shown parts.now) places.now
        → ArePlacesOf place (filter (λ p. comes_of_communal p.origin) (map shown parts.now)) commons.items) }
{
    let mut commons = Vec::new(alloc);
    for (place, part) in parts.iter().enumerate() {
        if is_communal(part) {
            commons.push(places[place])?;
        }
    }
    Ok(commons)
}
