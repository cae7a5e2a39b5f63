//! Bits of a word: those from one up to another.

ghost use Rattle.std.specs.Prelude.{◌≡◌, ℕ, ◌||◌, ◌<◌, ◌≤◌, IsTrue, ◌↔◌};
ghost use Rattle.byte_marks.specs.Bits.{HasBit, is_bit, is_from};

/// How many bits a word has.
pub const WORD: u32 = 64;

// The word with these bits alone.
fn ones(from: u32, past: u32) -> u64
    requires some { from < past }
    requires fits { past ≤ 64 }
    ensures { (i : ℕ) → is_bit result i ≡ is_from from past i }
{
    (u64::MAX >> (WORD - past)) & (u64::MAX << from)
}

/// Whether a word has one of the bits.
pub fn has_any(word: u64, from: u32, past: u32) -> bool
    requires some { from < past }
    requires fits { past ≤ 64 }
    ensures { IsTrue result ↔ HasBit (is_bit word) from past }
{
    word & ones(from, past) != 0
}

/// The word with the bits too.
pub fn with_all(word: u64, from: u32, past: u32) -> u64
    requires some { from < past }
    requires fits { past ≤ 64 }
    ensures { (i : ℕ) → is_bit result i ≡ (is_bit word i || is_from from past i) }
{
    word | ones(from, past)
}
