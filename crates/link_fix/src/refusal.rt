//! Which fixups are refused, whatever the bases are.

ghost use Rattle.std.specs.Prelude.{◌≡◌, ◌<◌, ◌^◌, ◌==◌, not};
ghost use Rattle.link_model.specs.Goals as goals;
ghost use Rattle.link_model.specs.Words.{difference as difference_of, option_any};
ghost use Rattle.link_model.specs.Fixups as rules;
ghost use Rattle.link_fix.specs.Shown.{placed_shown, target_shown};

use crate::fixup::{PlacedFixup, Target};
use crate::location::is_short;
use link_model::FixRefusal;
use obj_types::{LOCATION_BYTE, LOCATION_LOADER_32, LOCATION_OFFSET_32, has_selector};

// `a - b`, modulo 2^32.
pub fn difference(a: u64, b: u64) -> u32
    requires { a < 2 ^ 40 }
    ensures { result ≡ difference_of a b }
{
    ((a + (0x1_0000_0000 - b % 0x1_0000_0000)) % 0x1_0000_0000) as u32
}

/// Whether a target is a number.
pub fn is_constant(target: Target) -> bool
    ensures { result ≡ rules.is_constant (target_shown target) }
{
    match target {
        Target::Constant { value: _ } => true,
        Target::Internal {
            object: _,
            offset: _,
        }
        | Target::Entry { slot: _ } => false,
    }
}

fn object_of_target(target: Target) -> Option<u32>
    ensures { result ≡ goals.object_of_target (target_shown target) }
{
    match target {
        Target::Internal { object, offset: _ } => Some(object),
        Target::Constant { value: _ } | Target::Entry { slot: _ } => None,
    }
}

/// Whether a target is in an object, as that of a fixup's location.
pub fn is_in(target: Target, object: u32) -> bool
    ensures { result ≡ option_any (λ o. o == object) (goals.object_of_target (target_shown target)) }
{
    match object_of_target(target) {
        Some(of_target) => of_target == object,
        None => false,
    }
}

// How far it is from the byte after the location to the target, modulo 2^32.
fn distance(q: &PlacedFixup) -> u32
    ensures { result ≡ rules.distance (placed_shown q.now) (target_shown q.now.target) }
{
    match q.target {
        Target::Internal { object: _, offset } => difference(
            u64::from(offset) + u64::from(q.fix.disp) + u64::from(q.standing),
            u64::from(q.offset) + 1,
        ),
        Target::Constant { value: _ } | Target::Entry { slot: _ } => 0,
    }
}

// A low byte reaches from -128 to 127.
fn is_past_reach(distance: u32) -> bool
    ensures { result ≡ rules.is_past_reach distance }
{
    127 < distance && distance < 0xFFFF_FF80
}

fn is_far_self(q: &PlacedFixup) -> bool
    ensures { result ≡ rules.is_far_self (placed_shown q.now) }
{
    q.fix.selfrel
        && (is_constant(q.target)
            || is_short(q.fix.loc) && !is_in(q.target, q.object)
            || q.fix.loc == LOCATION_BYTE && is_past_reach(distance(q)))
}

// Whether a frame names another object than the target's.
fn are_apart(frame: Option<u32>, object: Option<u32>) -> bool
    ensures { result ≡ option_any (λ o. option_any (λ f. not (f == o)) frame) object }
{
    match (frame, object) {
        (Some(frame), Some(object)) => frame != object,
        (Some(_) | None, None) | (None, Some(_)) => false,
    }
}

fn is_frame_apart(q: &PlacedFixup) -> bool
    ensures { result ≡ rules.is_frame_apart (placed_shown q.now) }
{
    !q.fix.selfrel
        && !(q.fix.loc == LOCATION_OFFSET_32 || q.fix.loc == LOCATION_LOADER_32)
        && are_apart(q.frame, object_of_target(q.target))
}

fn is_const_selector(q: &PlacedFixup) -> bool
    ensures { result ≡ rules.is_const_selector (placed_shown q.now) }
{
    has_selector(q.fix.loc) && is_constant(q.target)
}

/// Why a fixup has no value, where it has none: `FarSelf` for a self-relative location that doesn't reach its target,
/// `FrameApart` where the frame names another object than the target's, `ConstSelector` for the selector of a number
/// ("9Ch FIXUPP").
#[tactic(auto, unfolding(link_model::specs::Fixups::fix_refusal))]
pub fn refusal_of(q: &PlacedFixup) -> Option<FixRefusal>
    ensures { result ≡ rules.fix_refusal (placed_shown q.now) }
{
    let (module, seg, offset) = (q.by, q.fix.seg, q.fix.offset);
    if is_far_self(q) {
        Some(FixRefusal::FarSelf {
            module,
            seg,
            offset,
        })
    } else if is_frame_apart(q) {
        Some(FixRefusal::FrameApart {
            module,
            seg,
            offset,
        })
    } else if is_const_selector(q) {
        Some(FixRefusal::ConstSelector {
            module,
            seg,
            offset,
        })
    } else {
        None
    }
}
