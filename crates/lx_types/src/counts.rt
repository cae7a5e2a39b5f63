//! Counts, as numbers of 32 bits.

ghost use Rattle.std.specs.Prelude.{◌≡◌, ◌≤◌, ◌^◌, MatchResult};

use crate::NoMemory;

/// A count as a number of 32 bits. One of 2^32 or more is want of memory: no field of a format and no refusal has
/// room for it.
pub fn count(len: usize) -> Result<u32, NoMemory>
    ensures { MatchResult result (λ count. count ≡ len) (λ _. 2 ^ 32 ≤ len) }
{
    match u32::try_from(len) {
        Ok(count) => Ok(count),
        Err(_) => Err(NoMemory),
    }
}
