//! The fixups of a link, with what their values need.

ghost use Rattle.std.specs.Prelude.{◌≡◌, ◌∷◌, [], IfOk, All, None, Some, length, map, not, option_map, option_to_list, sum_by};
ghost use Rattle.lx_types.specs.Answers.{Answers};
ghost use Rattle.obj_types.specs.Items.{item};
ghost use Rattle.link_model.specs.Words.{option_any};
ghost use Rattle.link_model.specs.Fixups as rules;
ghost use Rattle.link_model.specs.Link.{Link};
ghost use Rattle.link_fix.specs.Bare.{bare};
ghost use Rattle.link_fix.specs.Shown.{shown, placed_shown};
ghost use Rattle.link_fix.specs.Standing.{IsDataOf};
ghost use Rattle.link_fix.specs.Values.{IsAccepted};
ghost use Rattle.link_place.specs.Fixed.{fixup_at, fixups_in, fixups_by};
ghost use Rattle.link_place.specs.Judged.{first_refusal, Adds};
ghost use Rattle.link_types.specs.Places.{ArePlaces};
ghost use Rattle.link_place.specs.Meanings.{HasMeanings};
ghost use Rattle.link_place.specs.Placing.{HasLocations, fixup_refusal};

use crate::goals::{frame_of, location_of, target_of};
use link_fix::{Fixup, Images, PlacedFixup, data_of, refusal_of, standing_of};
use link_model::FixRefusal;
use link_types::{Places, Symbols};
use lx_types::{Fail, NoMemory, count};
use obj_types::{FixAt, ObjModule, Seg};
use std::alloc::Global;

// Whether a segment is 16-bit.
fn is_narrow(segs: &[Seg], index: u32) -> bool
    ensures { result ≡ option_any (λ s. not s.wide) (item segs.now index) }
{
    match index.checked_sub(1) {
        None => false,
        Some(place) => match segs.get(place as usize) {
            None => false,
            Some(segment) => !segment.wide,
        },
    }
}

// Adds what is left of a fixup, unless it is refused.
fn add_accepted(found: &mut Vec<Fixup>, q: &PlacedFixup) -> Result<(), Fail<FixRefusal>>
    ensures { Answers result
        (λ _. Adds (placed_shown q.now ∷ []) found.old.items found.new.items)
        (λ refusal. first_refusal (placed_shown q.now ∷ []) ≡ Some refusal) }
{
    match refusal_of(q) {
        Some(refusal) => Err(Fail::Said(refusal)),
        None => {
            found.push(q.bare())?;
            Ok(())
        }
    }
}

/// The fixups of a chosen module, and what their values need.
#[derive(Clone, Copy)]
struct ModuleFixups<'a> {
    places: &'a Places,
    syms: &'a Symbols,
    /// The module's number among the chosen ones.
    number: u32,
    object: &'a ObjModule,
}

impl ModuleFixups<'_> {
    // A fixup of the module with the number that stands in its location, where its goal and its location are there.
    fn placed(&self, fix: &FixAt, standing: u32) -> Option<PlacedFixup>
        ensures { option_map placed_shown result ≡ fixup_at self.now.places.now self.now.syms.now self.now.number self.now.object.now fix.now standing }
    {
        match (
            target_of(self.places, self.syms, self.number, fix.goal),
            location_of(self.places, self.number, fix),
        ) {
            (Some(target), Some((number, offset))) => Some(PlacedFixup {
                by: self.number,
                fix: *fix,
                object: number,
                offset,
                narrow: is_narrow(self.object.segs.as_slice(), fix.seg),
                target,
                frame: frame_of(self.places, self.syms, self.number, fix),
                standing,
            }),
            (Some(_) | None, None) | (None, Some(_)) => None,
        }
    }

    // Adds what is left of a fixup of the module, where its goal and its location are there.
    fn add_fixup(
        &self,
        found: &mut Vec<Fixup>,
        fix: &FixAt,
        standing: u32,
    ) -> Result<(), Fail<FixRefusal>>
        ensures { Answers result
            (λ _. Adds (option_to_list (fixup_at self.now.places.now self.now.syms.now self.now.number self.now.object.now fix.now standing))
            found.old.items found.new.items)
            (λ refusal. first_refusal (option_to_list (fixup_at self.now.places.now self.now.syms.now self.now.number self.now.object.now fix.now standing))
            ≡ Some refusal) }
    {
        match self.placed(fix, standing) {
            Some(q) => add_accepted(found, &q),
            None => Ok(()),
        }
    }

    // Adds what is left of all fixups of the module, in file order, with the numbers that stand in their locations by the
    // module's data. The first refusal ends it.
    fn add_fixups(&self, found: &mut Vec<Fixup>, rows: &Images) -> Result<(), Fail<FixRefusal>>
        requires { IsDataOf rows.now self.now.object.now }
        ensures { Answers result
            (λ _. Adds (fixups_in self.now.places.now self.now.syms.now self.now.number self.now.object.now) found.old.items found.new.items)
            (λ refusal. first_refusal (fixups_in self.now.places.now self.now.syms.now self.now.number self.now.object.now) ≡ Some refusal) }
    {
        let fixes = self.object.fixes.as_slice();
        let mut next = 0;
        'fixes: while next < fixes.len() {
            let standing = standing_of(rows, &fixes[next]);
            self.add_fixup(found, &fixes[next], standing)?;
            next += 1;
        }
        Ok(())
    }

    // Adds what is left of all fixups of the module. The data of a module without fixups is not looked at.
    fn add_to(&self, alloc: Global, found: &mut Vec<Fixup>) -> Result<(), Fail<FixRefusal>>
        ensures { Answers result
            (λ _. Adds (fixups_in self.now.places.now self.now.syms.now self.now.number self.now.object.now) found.old.items found.new.items)
            (λ refusal. first_refusal (fixups_in self.now.places.now self.now.syms.now self.now.number self.now.object.now) ≡ Some refusal) }
    {
        if self.object.fixes.as_slice().is_empty() {
            return Ok(());
        }
        let rows = data_of(alloc, self.object.pieces.as_slice())?;
        self.add_fixups(found, &rows)
    }
}

// How many fixups these modules have.
fn count_fixes(modules: &[&ObjModule]) -> Result<usize, NoMemory>
    ensures { IfOk result (λ count. count ≡ sum_by (λ m. length m.fixes) (map (λ m. m.now) modules.now)) }
{
    let mut count: usize = 0;
    for object in modules {
        let Some(more) = count.checked_add(object.fixes.as_slice().len()) else {
            return Err(NoMemory);
        };
        count = more;
    }
    Ok(count)
}

// What is left of the fixups of these chosen modules, or the first refusal of one.
fn fixups_among(
    alloc: Global,
    places: &Places,
    syms: &Symbols,
    modules: &[&ObjModule],
) -> Result<Vec<Fixup>, Fail<FixRefusal>>
    ensures { Answers result
        (λ found. Adds (fixups_by places.now syms.now (map (λ m. m.now) modules.now)) [] found.items)
        (λ refusal. first_refusal (fixups_by places.now syms.now (map (λ m. m.now) modules.now)) ≡ Some refusal) }
{
    let mut found = Vec::with_capacity(alloc, count_fixes(modules)?)?;
    for (index, object) in modules.iter().enumerate() {
        let fixups = ModuleFixups {
            places,
            syms,
            number: count(index + 1)?,
            object,
        };
        fixups.add_to(alloc, &mut found)?;
    }
    Ok(found)
}

/// What is left of all fixups of a link, in chosen order and in file order, where these are its places and its symbols, or
/// the first refusal of one.
pub(crate) fn fixups_of(
    alloc: Global,
    places: &Places,
    syms: &Symbols,
    modules: &[&ObjModule],
) -> Result<Vec<Fixup>, Fail<FixRefusal>>
    requires { All HasLocations (map (λ m. m.now) modules.now) }
    ensures accepted { IfOk result (λ found. All IsAccepted found.items) }
    ensures fixups { Answers result
        (λ found. (l : Link) → l.modules ≡ map (λ m. m.now) modules.now → ArePlaces l places.now → HasMeanings l syms.now
        → (fixup_refusal l ≡ None) × (map shown found.items ≡ map bare (rules.fixups l)))
        (λ refusal. (l : Link) → l.modules ≡ map (λ m. m.now) modules.now → ArePlaces l places.now → HasMeanings l syms.now
        → fixup_refusal l ≡ Some refusal) }
{
    fixups_among(alloc, places, syms, modules)
}
