//! Numbers in their ranges.

ghost use Rattle.std.specs.Prelude.{◌≤◌, IfOk};
ghost use Rattle.obj_types.specs.Definition.{IsBase};
ghost use Rattle.lx_types.specs.Answers.{if_said, Gives};
ghost use Rattle.def_model.specs.TokenMeaning.{within, base_of};

use def_model::DefKind;
use lx_types::{BASE_UNIT, Fail};
use obj_types::{MAX_BASE, MIN_BASE};

/// A number from `low` to `high`. One of 2^32 or more has no value.
pub fn within(low: u32, high: u32, value: Option<u32>) -> Result<u32, Fail<DefKind>>
    ensures value { Gives (λ x. x) if_said result (within low high value) }
    ensures low { IfOk result (λ n. low ≤ n) }
    ensures high { IfOk result (λ n. n ≤ high) }
{
    match value {
        Some(n) if low <= n && n <= high => Ok(n),
        _ => Err(Fail::Said(DefKind::Number)),
    }
}

/// A base is a multiple of 64 KiB in the two arenas.
pub fn base_of(value: Option<u32>) -> Result<u32, Fail<DefKind>>
    ensures value { Gives (λ x. x) if_said result (base_of value) }
    ensures base { IfOk result (λ n. IsBase n) }
{
    let base = within(MIN_BASE, MAX_BASE, value)?;
    if base % BASE_UNIT == 0 {
        Ok(base)
    } else {
        Err(Fail::Said(DefKind::Number))
    }
}
