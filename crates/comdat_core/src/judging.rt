//! Whether the COMDATs of a link are one for each name.

ghost use Rattle.std.specs.Prelude.{◌≡◌, ℕ, List, Some, None, IfOk, map, option_copied, slice_get, if◌then◌else◌};
ghost use Rattle.std.specs.List.{AllByRecursion};
ghost use Rattle.lx_types.specs.Answers.{Answers};
ghost use Rattle.obj_types.specs.declared.input.LinkInput.{LinkInput};
ghost use Rattle.link_model.specs.declared.symbols.Pick.{Pick};
ghost use Rattle.link_model.specs.Clash.{all_modules, place_of, comdat_refusal};
ghost use Rattle.link_model.specs.Words.{first_of};
ghost use Rattle.comdat_core.specs.Judging.{HasNumbers, clash_by};
ghost use Rattle.comdat_core.specs.ModuleData.{AreAt, HasData};
ghost use Rattle.comdat_core.specs.TakenOut.{IsTakenOut};

use crate::compare::{ModuleData, refuses};
use crate::taking::{Placed, Taken, TakenOut, has_comdats, place_after};
use link_model::{ComdatRefusal, Pick, without_comdats_all_is_kept};
use link_types::Symbols;
use lx_types::{Fail, NoMemory, count};
use obj_types::LinkInput;
use std::alloc::Global;
use std::collections::BTreeMap;

/// The numbers of chosen modules by the places of these among the object files and then the library modules.
type Numbers = BTreeMap<usize, u32>;

/// A chosen module: its place among the object files and then the library modules, and its number.
#[derive(Clone, Copy)]
struct Chosen {
    place: usize,
    number: u32,
}

// The place of a pick's module.
fn place_of(input: &LinkInput, pick: &Pick) -> Result<usize, NoMemory>
    ensures { IfOk result (λ place. place ≡ place_of input.now pick.now) }
{
    if pick.lib {
        place_after(input.objects.as_slice().len(), pick.index as usize)
    } else {
        Ok(pick.index as usize)
    }
}

// The numbers of the chosen modules.
fn numbers_of(alloc: Global, input: &LinkInput, picks: &[Pick]) -> Result<Numbers, NoMemory>
    ensures { IfOk result (λ numbers. HasNumbers input.now picks.now numbers) }
{
    let mut numbers = BTreeMap::new(alloc);
    for (index, pick) in picks.iter().enumerate() {
        let place = place_of(input, pick)?;
        if !numbers.contains_key(&place) {
            let _none = numbers.insert(place, count(index + 1)?)?;
        }
    }
    Ok(numbers)
}

// The clash of a COMDAT that is taken out of a chosen module.
fn clash_of(
    alloc: Global,
    numbers: &Numbers,
    kept: &mut ModuleData,
    chosen: Chosen,
    taken: &Taken<'_>,
) -> Result<Option<ComdatRefusal>, NoMemory>
    ensures { IfOk result (λ clash. (input : LinkInput) (picks : List Pick) → HasNumbers input picks numbers.now
        → HasData (all_modules input) kept.old → AreAt (all_modules input) chosen.place taken.now
        → (clash ≡ clash_by input picks chosen.number taken.now) × HasData (all_modules input) kept.new) }
{
    let first = match numbers.get(&taken.first.place) {
        None => return Ok(None),
        Some(first) => *first,
    };
    let second = Placed {
        place: chosen.place,
        own: taken.own,
    };
    if !refuses(alloc, kept, &taken.first, &second)? {
        return Ok(None);
    }
    Ok(Some(ComdatRefusal::Clash {
        name: taken.own.comdat.name.copied(alloc)?,
        first,
        second: chosen.number,
    }))
}

// Whether those that are taken out of a chosen module clash with none.
fn judge_taken(
    alloc: Global,
    numbers: &Numbers,
    kept: &mut ModuleData,
    chosen: Chosen,
    taken: &[Taken<'_>],
) -> Result<(), Fail<ComdatRefusal>>
    ensures { (input : LinkInput) (picks : List Pick) → HasNumbers input picks numbers.now
        → HasData (all_modules input) kept.old → AllByRecursion (AreAt (all_modules input) chosen.place) taken.now
        → Answers result
        (λ _. (first_of (map (clash_by input picks chosen.number) taken.now) ≡ None) × HasData (all_modules input) kept.new)
        (λ refusal. first_of (map (clash_by input picks chosen.number) taken.now) ≡ Some refusal) }
{
    for one in taken {
        if let Some(clash) = clash_of(alloc, numbers, kept, chosen, one)? {
            return Err(Fail::Said(clash));
        }
    }
    Ok(())
}

// What is taken out of the module of a pick.
fn taken_at<'a, 'b>(out: &'b TakenOut<'a>, pick: &Pick) -> Option<&'b Vec<Taken<'a>>>
    ensures { option_copied result ≡ slice_get (if pick.now.lib then out.entry.now.libs.items else out.entry.now.objects.items) pick.now.index }
{
    let lists = if pick.lib { &out.libs } else { &out.objects };
    lists.get(pick.index as usize)
}

/// Judges the COMDATs that are taken out of a link, where `syms` are the symbols of what `keep` keeps: `Clash` comes for the
/// first chosen module, and in it for the first COMDAT, for which the one that stays in a chosen module may not stand. Where
/// their bytes are compared, the data of the two modules is copied, of each module once.
pub fn judge(
    alloc: Global,
    input: &LinkInput,
    out: &TakenOut<'_>,
    syms: &Symbols,
) -> Result<(), Fail<ComdatRefusal>>
    requires { IsTakenOut input.now out.now }
    ensures { Answers result
        (λ _. comdat_refusal input.now syms.now.chosen ≡ None) (λ refusal. comdat_refusal input.now syms.now.chosen ≡ Some refusal) }
{
    if !has_comdats(input) {
        without_comdats_all_is_kept();
        return Ok(());
    }
    let picks = syms.chosen();
    let numbers = numbers_of(alloc, input, picks)?;
    let mut kept = BTreeMap::new(alloc);
    for (index, pick) in picks.iter().enumerate() {
        if let Some(taken) = taken_at(out, pick) {
            let chosen = Chosen {
                place: place_of(input, pick)?,
                number: count(index + 1)?,
            };
            match judge_taken(alloc, &numbers, &mut kept, chosen, taken.as_slice()) {
                Err(fail) => return Err(fail),
                Ok(()) => {}
            }
        }
    }
    Ok(())
}
