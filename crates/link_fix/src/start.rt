//! The start of a linked module.

ghost use Rattle.std.specs.Prelude.{◌≡◌};
ghost use Rattle.link_model.specs.Link.{Link};
ghost use Rattle.link_model.specs.Layout as layout;
ghost use Rattle.link_model.specs.Start as start_rules;
ghost use Rattle.link_fix.specs.Shown.{target_shown};
ghost use Rattle.link_fix.specs.Start.{is_among, start_among};

use crate::fixup::Target;
use link_model::LaidObject;
use obj_types::StartAt;

// Whether an offset lies below the size of its object.
fn is_in_object(objects: &[LaidObject], place: (u32, u32)) -> bool
    ensures { result ≡ is_among objects.now place }
{
    match place.0.checked_sub(1) {
        None => false,
        Some(index) => match objects.get(index as usize) {
            None => false,
            Some(object) => place.1 < object.size,
        },
    }
}

// The place of a start address whose target is known.
fn place_of(objects: &[LaidObject], start: &StartAt, target: Target) -> Option<(u32, u32)>
    ensures { result ≡ start_among objects.now start.now (target_shown target) }
{
    match target {
        Target::Constant { value: _ } | Target::Entry { slot: _ } => None,
        Target::Internal { object, offset } => {
            let place = (object, offset.wrapping_add(start.disp));
            if is_in_object(objects, place) {
                Some(place)
            } else {
                None
            }
        }
    }
}

/// The object and the offset at which a module starts, where the target of its start address is known. There is none
/// where the target is in no object, or the offset is not below its object's size. The frame is not judged.
pub fn start_place(objects: &[LaidObject], start: &StartAt, target: Target) -> Option<(u32, u32)>
    ensures { (l : Link) → objects.now ≡ layout.objects l → result ≡ start_rules.start_place l start.now (target_shown target) }
{
    place_of(objects, start, target)
}
