//! The start of a link.

ghost use Rattle.std.specs.Prelude.{◌≡◌, None, Some, IfOk, map, MatchResult, option_and_then};
ghost use Rattle.std.specs.List.{enumerate_from};
ghost use Rattle.link_model.specs.Words.{first_of};
ghost use Rattle.link_model.specs.Link.{Link};
ghost use Rattle.link_model.specs.Layout as layout;
ghost use Rattle.link_model.specs.Start as rules;
ghost use Rattle.link_types.specs.Places.{ArePlaces};
ghost use Rattle.link_place.specs.Meanings.{HasMeanings};

use crate::goals::target_of;
use link_fix::start_place;
use link_model::{FixRefusal, LaidObject};
use link_types::{Places, Symbols};
use lx_types::{NoMemory, count};
use obj_types::{ObjModule, StartAt};

// The start address of the first chosen module that has one, with the module's number.
fn first_start(modules: &[&ObjModule]) -> Result<Option<(u32, StartAt)>, NoMemory>
    ensures { IfOk result (λ first. first ≡ first_of (map rules.start_of (enumerate_from 1 (map (λ m. m.now) modules.now)))) }
{
    for (index, object) in modules.iter().enumerate() {
        if let Some(start) = object.start {
            return Ok(Some((count(index + 1)?, start)));
        }
    }
    Ok(None)
}

// The place of a module's start address.
fn place_of(
    places: &Places,
    syms: &Symbols,
    objects: &[LaidObject],
    module: u32,
    start: &StartAt,
) -> Option<(u32, u32)>
    ensures { (l : Link) → objects.now ≡ layout.objects l → ArePlaces l places.now → HasMeanings l syms.now →
        result ≡ rules.place_of_start l («module», start.now) }
{
    match target_of(places, syms, module, start.goal) {
        None => None,
        Some(target) => start_place(objects, start, target),
    }
}

/// The object and the offset at which the linked module starts. `StartOutside` comes exactly where the first start
/// address of the chosen modules is in no object, or not below its object's size.
pub(crate) fn start_of(
    places: &Places,
    syms: &Symbols,
    objects: &[LaidObject],
    modules: &[&ObjModule],
) -> Result<Result<Option<(u32, u32)>, FixRefusal>, NoMemory>
    ensures { IfOk result (λ start. (l : Link) → l.modules ≡ map (λ m. m.now) modules.now → objects.now ≡ layout.objects l → ArePlaces l places.now →
        HasMeanings l syms.now
        → MatchResult start (λ place. (place ≡ rules.Start l) × (rules.start_outside l ≡ None)) (λ refusal. rules.start_outside l ≡ Some refusal)) }
{
    match first_start(modules)? {
        None => Ok(Ok(None)),
        Some((module, start)) => match place_of(places, syms, objects, module, &start) {
            Some(place) => Ok(Ok(Some(place))),
            None => Ok(Err(FixRefusal::StartOutside { module })),
        },
    }
}
