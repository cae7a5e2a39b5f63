//! From a link's input to the file of its module.

ghost use Rattle.std.specs.Prelude.{◌≡◌, ◌<◌, ◌^◌, IfOk, length};
ghost use Rattle.lx_types.specs.Answers.{Answers};
ghost use Rattle.obj_types.specs.Input.{WholeInput};
ghost use Rattle.link_model.specs.Kept.{Kept};
ghost use Rattle.image_model.specs.LinkedFile.{IsLinkedFile};
ghost use Rattle.comdat_core.specs.Aside.{bare};
ghost use Rattle.comdat_core.specs.TakenOut.{IsTakenOut};
ghost use Rattle.link_core.specs.Links.{IsLinked, IsLinkedImage, RefusesLink};
ghost use Rattle.link_core.specs.Planned.{IsPlanned};

use crate::counts::{page_count, source_count};
use crate::failing::failed_as;
use crate::planning::{Plan, plan_link};
use comdat_core::{
    TakenOut, keep, nothing_taken, nothing_taken_links_alike, put_back, set_aside, taken_out,
};
use link_model::{LinkRefusal, what_is_kept_is_whole};
use lx_types::{Bytes, Fail, Name, NoMemory, Seq, count};
use lx_write::{Image, link_images_are_written, write_module};
use obj_types::LinkInput;
use std::alloc::Global;

/// A linked module.
#[derive(Drop)]
pub struct Linked {
    /// The bytes of the module's file, fewer than 2^32.
    pub file: Bytes,
    /// The module's name, in upper case.
    pub name: Name,
    /// The number of objects.
    pub objects: u32,
    /// The number of pages of 4,096 bytes, in all objects.
    pub pages: u32,
    /// The number of fixups that are left to the loader; one on two pages counts twice.
    pub sources: u32,
}

// What was linked, from its parts and its file.
fn linked_of(alloc: Global, image: &Image, file: Vec<u8>) -> Result<Linked, NoMemory>
    ensures { IfOk result (λ linked. IsLinkedImage image.now file.items linked) }
{
    Ok(Linked {
        file: Seq::from_vec(file),
        name: image.name.to_uppercase(alloc)?,
        objects: count(image.objects.as_slice().len())?,
        pages: page_count(image.fixes.as_slice())?,
        sources: source_count(image.fixes.as_slice())?,
    })
}

// The file of a plan, and what was linked with it.
fn write_plan(alloc: Global, input: &LinkInput, plan: &Plan) -> Result<Linked, Fail<LinkRefusal>>
    requires planned { IsPlanned input.now plan.now }
    ensures linked { Answers result (λ linked. IsLinked input.now linked) (λ refusal. RefusesLink input.now refusal) }
    ensures short { IfOk result (λ linked. length linked.file < 2 ^ 32) }
{
    link_images_are_written();
    match write_module(alloc, &plan.image) {
        Err(fail) => Err(failed_as(fail, LinkRefusal::Entry)),
        Ok(file) => Ok(linked_of(alloc, &plan.image, file)?),
    }
}

// Links the input, where `kept` is what is kept of it, and `out` what is taken out.
fn link_kept(
    alloc: Global,
    input: &LinkInput,
    kept: &LinkInput,
    out: &TakenOut<'_>,
) -> Result<Linked, Fail<LinkRefusal>>
    requires whole { WholeInput kept.now }
    requires kept { kept.now ≡ Kept input.now }
    requires out { IsTakenOut input.now out.now }
    ensures linked { Answers result (λ linked. IsLinked input.now linked) (λ refusal. RefusesLink input.now refusal) }
    ensures short { IfOk result (λ linked. length linked.file < 2 ^ 32) }
{
    match plan_link(alloc, input, kept, out) {
        Err(fail) => Err(fail),
        Ok(plan) => write_plan(alloc, input, &plan),
    }
}

// Links an input of which nothing is taken out: its lists of COMDATs are set aside, and it is linked without a copy.
fn link_bare(alloc: Global, input: &mut LinkInput) -> Result<Linked, Fail<LinkRefusal>>
    requires whole { WholeInput (bare input.old) }
    ensures linked { Answers result (λ linked. IsLinked (bare input.old) linked) (λ refusal. RefusesLink (bare input.old) refusal) }
    ensures same { Answers result (λ _. input.new ≡ input.old) (λ _. input.new ≡ input.old) }
    ensures short { IfOk result (λ linked. length linked.file < 2 ^ 32) }
{
    nothing_taken_links_alike();
    let aside = set_aside(alloc, input)?;
    let out = taken_out(alloc, input)?;
    let linked = link_kept(alloc, input, input, &out);
    drop(out);
    put_back(alloc, input, aside);
    linked
}

/// Links the input to the file of a module ("32-bit Linear eXecutable Module Format").
///
/// Of COMDATs of one name one is kept; an input of which none is taken out is linked without a copy. Names are tried first, then
/// COMDATs, the layout, the fixups with the start, and the exports, and the first refusal is answered. The input is as it was
/// then; after want of memory it may be anything.
/// Where the file would have 2^32 bytes or more no memory is found.
pub fn link_module(alloc: Global, input: &mut LinkInput) -> Result<Linked, Fail<LinkRefusal>>
    requires whole { WholeInput input.old }
    ensures linked { Answers result (λ linked. IsLinked input.old linked) (λ refusal. RefusesLink input.old refusal) }
    ensures same { Answers result (λ _. input.new ≡ input.old) (λ _. input.new ≡ input.old) }
    ensures short { IfOk result (λ linked. length linked.file < 2 ^ 32) }
{
    what_is_kept_is_whole();
    nothing_taken_links_alike();
    let out = taken_out(alloc, input)?;
    if nothing_taken(&out) {
        drop(out);
        return link_bare(alloc, input);
    }
    let kept = keep(alloc, input, &out)?;
    link_kept(alloc, input, &kept, &out)
}

/// The file alone of what the input is linked to, as `link_module` answers it.
pub fn link(alloc: Global, input: &mut LinkInput) -> Result<Vec<u8>, Fail<LinkRefusal>>
    requires whole { WholeInput input.old }
    ensures linked { Answers result (λ file. IsLinkedFile input.old file.items) (λ refusal. RefusesLink input.old refusal) }
    ensures same { Answers result (λ _. input.new ≡ input.old) (λ _. input.new ≡ input.old) }
    ensures short { IfOk result (λ file. length file.items < 2 ^ 32) }
{
    match link_module(alloc, input) {
        Err(fail) => Err(fail),
        Ok(linked) => Ok(linked.file.into_vec()),
    }
}
