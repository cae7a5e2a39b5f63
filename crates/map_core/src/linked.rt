//! From a link's input to its map.

ghost use Rattle.std.specs.Prelude.{◌≡◌};
ghost use Rattle.lx_types.specs.Answers.{Answers};
ghost use Rattle.obj_types.specs.Input.{WholeInput};
ghost use Rattle.link_model.specs.Kept.{Kept};
ghost use Rattle.comdat_core.specs.Aside.{bare};
ghost use Rattle.comdat_core.specs.TakenOut.{IsTakenOut};
ghost use Rattle.link_core.specs.Links.{RefusesLink};
ghost use Rattle.link_core.specs.Planned.{IsPlanned};
ghost use Rattle.map_core.specs.Mapped.{IsMapped};

use crate::mapping::map_kept;
use comdat_core::{
    TakenOut, keep, nothing_taken, nothing_taken_links_alike, put_back, set_aside, taken_out,
};
use link_core::{Plan, failed_as, plan_link};
use link_model::{LinkRefusal, what_is_kept_is_whole};
use lx_exports::write_tables;
use lx_types::Fail;
use obj_types::LinkInput;
use std::alloc::Global;

// The map of a plan, or what is refused of its exports, which are tried by writing their tables.
fn map_plan(
    alloc: Global,
    input: &LinkInput,
    kept: &LinkInput,
    plan: &Plan,
) -> Result<Vec<u8>, Fail<LinkRefusal>>
    requires whole { WholeInput kept.now }
    requires kept { kept.now ≡ Kept input.now }
    requires planned { IsPlanned input.now plan.now }
    ensures { Answers result (λ text. IsMapped input.now text.items) (λ refusal. RefusesLink input.now refusal) }
{
    match write_tables(
        alloc,
        &plan.image.name,
        &plan.image.about,
        plan.image.exports.as_slice(),
    ) {
        Err(fail) => Err(failed_as(fail, LinkRefusal::Entry)),
        Ok(_tables) => Ok(map_kept(alloc, &plan.image.name, kept, &plan.syms, &plan.layout)?),
    }
}

// The map of what an input links to, where `kept` is what is kept of it, and `out` what is taken out.
fn map_of_kept(
    alloc: Global,
    input: &LinkInput,
    kept: &LinkInput,
    out: &TakenOut<'_>,
) -> Result<Vec<u8>, Fail<LinkRefusal>>
    requires whole { WholeInput kept.now }
    requires kept { kept.now ≡ Kept input.now }
    requires out { IsTakenOut input.now out.now }
    ensures { Answers result (λ text. IsMapped input.now text.items) (λ refusal. RefusesLink input.now refusal) }
{
    match plan_link(alloc, input, kept, out) {
        Err(fail) => Err(fail),
        Ok(plan) => map_plan(alloc, input, kept, &plan),
    }
}

// The map of an input of which nothing is taken out: its lists of COMDATs are set aside, and no copy is made.
fn map_bare(alloc: Global, input: &mut LinkInput) -> Result<Vec<u8>, Fail<LinkRefusal>>
    requires { WholeInput (bare input.old) }
    ensures mapped { Answers result (λ text. IsMapped (bare input.old) text.items) (λ refusal. RefusesLink (bare input.old) refusal) }
    ensures same { Answers result (λ _. input.new ≡ input.old) (λ _. input.new ≡ input.old) }
{
    nothing_taken_links_alike();
    let aside = set_aside(alloc, input)?;
    let out = taken_out(alloc, input)?;
    let mapped = map_of_kept(alloc, input, input, &out);
    drop(out);
    put_back(alloc, input, aside);
    mapped
}

/// The map of what the input links to, at linked bases: its objects, its segments, its communals, its publics and what it imports,
/// a line each; or the first refusal of the link, as `link_core::link_module` answers it. The input is as it was then; after want
/// of memory it may be anything.
pub fn map_input(alloc: Global, input: &mut LinkInput) -> Result<Vec<u8>, Fail<LinkRefusal>>
    requires { WholeInput input.old }
    ensures mapped { Answers result (λ text. IsMapped input.old text.items) (λ refusal. RefusesLink input.old refusal) }
    ensures same { Answers result (λ _. input.new ≡ input.old) (λ _. input.new ≡ input.old) }
{
    what_is_kept_is_whole();
    nothing_taken_links_alike();
    let out = taken_out(alloc, input)?;
    if nothing_taken(&out) {
        drop(out);
        return map_bare(alloc, input);
    }
    let kept = keep(alloc, input, &out)?;
    map_of_kept(alloc, input, &kept, &out)
}
