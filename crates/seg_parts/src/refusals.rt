//! Refusals of single parts.

ghost use Rattle.std.specs.Prelude.{◌≡◌, ◌==◌, None, Some, map, find, option_copied};
ghost use Rattle.lx_types.specs.Answers.{Answers};
ghost use Rattle.link_model.specs.declared.refusals.LayRefusal.TheVariants.{AbsoluteSeg};
ghost use Rattle.seg_parts.specs.Parts.{shown};
ghost use Rattle.seg_parts.specs.Refusals.{absolute_in};

use crate::parts::Part;
use link_model::LayRefusal;
use lx_types::Fail;
use obj_types::ALIGN_ABSOLUTE;
use std::alloc::Global;

fn first_absolute<'a>(contributions: &'a [Part<'a>]) -> Option<&'a Part<'a>>
    ensures { option_copied result ≡ find (λ p. (shown p).align == ALIGN_ABSOLUTE) contributions.entry.now }
{
    contributions
        .iter()
        .find(|part| part.align == ALIGN_ABSOLUTE)
}

/// The first contribution of alignment 0 is refused: it is absolute.
pub fn check_absolute(alloc: Global, contributions: &[Part<'_>]) -> Result<(), Fail<LayRefusal>>
    ensures { Answers result
        (λ _. absolute_in (map shown contributions.now) ≡ None)
        (λ refusal. absolute_in (map shown contributions.now) ≡ Some refusal) }
{
    match first_absolute(contributions) {
        None => Ok(()),
        Some(part) => Err(Fail::Said(LayRefusal::AbsoluteSeg {
            seg: part.name.copied(alloc)?,
        })),
    }
}
