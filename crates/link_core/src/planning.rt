//! A link before its file is written: symbols, then the layout, then fixups, and with them all parts of the module.

ghost use Rattle.std.specs.Prelude.{◌≡◌, Some, None};
ghost use Rattle.lx_types.specs.Answers.{Answers};
ghost use Rattle.obj_types.specs.Input.{WholeInput};
ghost use Rattle.link_model.specs.Kept.{Kept};
ghost use Rattle.link_model.specs.LayoutRefusals.{lay_refusal};
ghost use Rattle.link_model.specs.Link.{link_of};
ghost use Rattle.link_model.specs.Refusal.{link_refusal};
ghost use Rattle.link_types.specs.Binding.{IsBound};
ghost use Rattle.link_types.specs.Layout.{IsLaidOut};
ghost use Rattle.comdat_core.specs.TakenOut.{IsTakenOut};
ghost use Rattle.link_core.specs.Links.{RefusesLink};
ghost use Rattle.link_core.specs.Parts.{AreParts};
ghost use Rattle.link_core.specs.Planned.{IsPlanned, IsPlannedLink, plan_with};

use crate::failing::failed_as;
use crate::image::{LinkParts, PlacedImage, image_of, tables_of};
use comdat_core::{TakenOut, judge};
use link_model::LinkRefusal;
use link_place::place_fixes;
use link_types::{Layout, Symbols};
use lx_types::Fail;
use lx_write::Image;
use obj_types::LinkInput;
use seg_merge::lay_out;
use std::alloc::Global;
use sym_table::bind;

/// A link whose names, segments and fixups are not refused.
pub struct Plan {
    /// Which modules are chosen, and what names mean.
    pub syms: Symbols,
    /// The objects, and where segments, communals and groups stand in them.
    pub layout: Layout,
    /// What the module's file says.
    pub image: Image,
}

// Dropped by a call, as lists are (`Seq`).
impl Drop for Plan {
    fn drop(self) {
        let Plan {
            syms,
            layout,
            image,
        } = self;
        drop(syms);
        drop(layout);
        drop(image);
    }
}

// What stands in the pages of a link that has a layout, and its tables.
fn parts_of(
    alloc: Global,
    input: &LinkInput,
    syms: &Symbols,
    layout: &Layout,
) -> Result<LinkParts, Fail<LinkRefusal>>
    requires whole { WholeInput input.now }
    requires bound { IsBound input.now syms.now }
    requires laid { IsLaidOut (link_of input.now syms.now.chosen) layout.now }
    requires lay { lay_refusal (link_of input.now syms.now.chosen) ≡ None }
    ensures { Answers result
        (λ parts. AreParts (link_of input.now syms.now.chosen) syms.now layout.now parts)
        (λ refusal. link_refusal (link_of input.now syms.now.chosen) ≡ Some refusal) }
{
    match place_fixes(alloc, input, syms, layout) {
        Err(fail) => Err(failed_as(fail, LinkRefusal::Fixing)),
        Ok(placed) => {
            let tables = tables_of(alloc, input, syms, layout, &placed)?;
            Ok(LinkParts { placed, tables })
        }
    }
}

// The image of a link that has a layout.
fn plan_laid(
    alloc: Global,
    input: &LinkInput,
    syms: &Symbols,
    layout: Layout,
) -> Result<PlacedImage, Fail<LinkRefusal>>
    requires whole { WholeInput input.now }
    requires bound { IsBound input.now syms.now }
    requires laid { IsLaidOut (link_of input.now syms.now.chosen) layout }
    requires lay { lay_refusal (link_of input.now syms.now.chosen) ≡ None }
    ensures { Answers result
        (λ made. IsPlannedLink (link_of input.now syms.now.chosen) (plan_with syms.now made))
        (λ refusal. link_refusal (link_of input.now syms.now.chosen) ≡ Some refusal) }
{
    match parts_of(alloc, input, syms, &layout) {
        Err(fail) => Err(fail),
        Ok(parts) => Ok(image_of(alloc, input, layout, parts)?),
    }
}

// The image of a link whose names have meanings, of what is kept of an input.
fn plan_bound(
    alloc: Global,
    input: &LinkInput,
    kept: &LinkInput,
    out: &TakenOut<'_>,
    syms: &Symbols,
) -> Result<PlacedImage, Fail<LinkRefusal>>
    requires whole { WholeInput kept.now }
    requires kept { kept.now ≡ Kept input.now }
    requires out { IsTakenOut input.now out.now }
    requires bound { IsBound kept.now syms.now }
    ensures { Answers result (λ made. IsPlanned input.now (plan_with syms.now made)) (λ refusal. RefusesLink input.now refusal) }
{
    match judge(alloc, input, out, syms) {
        Err(fail) => Err(failed_as(fail, LinkRefusal::Comdat)),
        Ok(()) => match lay_out(alloc, kept, syms) {
            Err(fail) => Err(failed_as(fail, LinkRefusal::Lay)),
            Ok(layout) => plan_laid(alloc, kept, syms, layout),
        },
    }
}

/// The parts of the module that the input is linked to, where `kept` is what is kept of it, and `out` what is taken out. The
/// first refusal of its names, its COMDATs, its layout, its fixups and its start is answered; what is to be refused of its
/// exports is not tried yet.
pub fn plan_link(
    alloc: Global,
    input: &LinkInput,
    kept: &LinkInput,
    out: &TakenOut<'_>,
) -> Result<Plan, Fail<LinkRefusal>>
    requires whole { WholeInput kept.now }
    requires kept { kept.now ≡ Kept input.now }
    requires out { IsTakenOut input.now out.now }
    ensures { Answers result (λ plan. IsPlanned input.now plan) (λ refusal. RefusesLink input.now refusal) }
{
    match bind(alloc, kept) {
        Err(fail) => Err(failed_as(fail, LinkRefusal::Sym)),
        Ok(syms) => match plan_bound(alloc, input, kept, out, &syms) {
            Err(fail) => Err(fail),
            Ok(made) => Ok(Plan {
                syms,
                layout: made.layout,
                image: made.image,
            }),
        },
    }
}
