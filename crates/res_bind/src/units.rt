//! Multiples of a unit.

ghost use Rattle.std.specs.Prelude.{◌≡◌, ◌+◌, ◌<◌, ◌≤◌, ◌^◌};
ghost use Rattle.res_model.specs.Placed.{up_to_unit, aligned};

/// The least multiple of a unit that is not below a number.
#[tactic(auto, using(crate::proofs::Multiples::unit_below))]
pub fn up_to_unit(n: u64, unit: u64) -> u64
    requires some { 0 < unit }
    requires room { n + unit < 2 ^ 64 }
    ensures { result ≡ up_to_unit n unit }
{
    (n + (unit - 1)) / unit * unit
}

/// Where the next item stands after so many bytes of the object.
pub fn aligned(end: u64) -> u64
    requires { end < 2 ^ 63 }
    ensures is { result ≡ aligned end }
    ensures above { end ≤ result }
    ensures near { result < end + 4 }
{
    up_to_unit(end, 4)
}
