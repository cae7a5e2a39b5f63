//! What goals are, where locations stand, and which objects frames name.

ghost use Rattle.std.specs.Prelude.{◌≡◌, option_map, option_and_then};
ghost use Rattle.link_fix.specs.Shown.{target_shown};
ghost use Rattle.link_model.specs.Goals.{internal as internal_at, shifted as place_after, object_of_target as object_in};
ghost use Rattle.link_place.specs.Fixed.{group_target, symbol_at, external_at, target_at, location_at, frame_at};
ghost use Rattle.link_types.specs.Places.{spot_in};

use link_fix::Target;
use link_model::SymDef;
use link_types::{Places, Symbols};
use obj_types::{FixAt, Frame, Goal};

// The place so many bytes on. It may pass its segment, so it is wrapped.
fn shifted(place: (u32, u32), offset: u32) -> (u32, u32)
    ensures { result ≡ place_after offset place }
{
    (place.0, place.1.wrapping_add(offset))
}

fn internal(place: Option<(u32, u32)>) -> Option<Target>
    ensures { option_map target_shown result ≡ internal_at place }
{
    match place {
        None => None,
        Some((object, offset)) => Some(Target::Internal { object, offset }),
    }
}

fn spot_after(places: &Places, module: u32, seg: u32, offset: u32) -> Option<(u32, u32)>
    ensures { result ≡ option_map (place_after offset) (spot_in places.now «module» seg) }
{
    match places.spot(module, seg) {
        None => None,
        Some(place) => Some(shifted(place, offset)),
    }
}

/// What a name leads to: a place in an object, a number, or an entry point of another module.
pub fn of_symbol(places: &Places, symbol: SymDef) -> Option<Target>
    ensures { option_map target_shown result ≡ symbol_at places.now symbol }
{
    match symbol {
        SymDef::In {
            module,
            seg,
            offset,
        } => internal(spot_after(places, module, seg, offset)),
        SymDef::Const { value } => Some(Target::Constant { value }),
        SymDef::Common { slot } => internal(places.common(slot)),
        SymDef::Import { slot } => Some(Target::Entry { slot }),
    }
}

fn of_external(places: &Places, syms: &Symbols, module: u32, index: u32) -> Option<Target>
    ensures { option_map target_shown result ≡ external_at places.now syms.now «module» index }
{
    if syms.has_external(module, index) {
        of_symbol(places, syms.find(module, index))
    } else {
        None
    }
}

fn of_group(object: Option<u32>) -> Target
    ensures { target_shown result ≡ group_target object }
{
    match object {
        None => Target::Constant { value: 0 },
        Some(object) => Target::Internal { object, offset: 0 },
    }
}

/// What a goal of a chosen module is. A segment goal is its contribution's start, and a group goal its object's start;
/// FLAT and a group without members are the constant 0 ("9Ch FIXUPP", target methods).
pub(crate) fn target_of(places: &Places, syms: &Symbols, module: u32, goal: Goal) -> Option<Target>
    ensures { option_map target_shown result ≡ target_at places.now syms.now «module» goal }
{
    match goal {
        Goal::Seg(index) => internal(places.spot(module, index)),
        Goal::Ext(index) => of_external(places, syms, module, index),
        Goal::Group(index) => match places.group(module, index) {
            None => None,
            Some(object) => Some(of_group(object)),
        },
    }
}

/// Where a fixup's location stands.
pub(crate) fn location_of(places: &Places, module: u32, fix: &FixAt) -> Option<(u32, u32)>
    ensures { result ≡ location_at places.now «module» fix.now }
{
    spot_after(places, module, fix.seg, fix.offset)
}

fn object_at(place: Option<(u32, u32)>) -> Option<u32>
    ensures { result ≡ option_map (λ q. q.0) place }
{
    match place {
        None => None,
        Some((object, _)) => Some(object),
    }
}

fn object_of_target(target: Option<Target>) -> Option<u32>
    ensures { result ≡ option_and_then object_in (option_map target_shown target) }
{
    match target {
        Some(Target::Internal { object, offset: _ }) => Some(object),
        Some(Target::Constant { value: _ } | Target::Entry { slot: _ }) | None => None,
    }
}

fn object_of_group(object: Option<Option<u32>>) -> Option<u32>
    ensures { result ≡ option_and_then (λ o. o) object }
{
    match object {
        None => None,
        Some(object) => object,
    }
}

/// The object that a fixup's frame names. FLAT, a group without members, an import, a constant and the target's own
/// frame name none ("9Ch FIXUPP", frame methods).
pub(crate) fn frame_of(places: &Places, syms: &Symbols, module: u32, fix: &FixAt) -> Option<u32>
    ensures { result ≡ frame_at places.now syms.now «module» fix.now fix.now.frame }
{
    match fix.frame {
        Frame::Seg(index) => object_at(places.spot(module, index)),
        Frame::Group(index) => object_of_group(places.group(module, index)),
        Frame::Ext(index) => object_of_target(of_external(places, syms, module, index)),
        Frame::Here => object_at(places.spot(module, fix.seg)),
        Frame::OfTarget => None,
    }
}
