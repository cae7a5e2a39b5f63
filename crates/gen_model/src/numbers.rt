//! The numbers of the generator's modules and of the session that loads them, and a law that writes them out.

ghost use Rattle.std.specs.Prelude.{◌≡◌};

/// How many bytes a module's segment has, which are two pages.
pub const SEGMENT_LEN: u32 = 8_192;

/// How many bytes a piece of the segment's data has.
pub const PIECE_LEN: u32 = 1_024;

/// How many pieces there are.
pub const PIECES: u32 = 8;

/// How many references there are: one in each doubleword.
pub const REFERENCES: u32 = 2_048;

/// How many processes the session has.
pub const PROCESSES: u32 = 4;

/// How many bytes of a module a process reads.
pub const FRONT_LEN: u32 = 16;

/// A law: each number of the generator.
pub fn generator_numbers()
    ensures segment { SEGMENT_LEN ≡ 8192 }
    ensures piece { PIECE_LEN ≡ 1024 }
    ensures pieces { PIECES ≡ 8 }
    ensures references { REFERENCES ≡ 2048 }
    ensures processes { PROCESSES ≡ 4 }
    ensures front { FRONT_LEN ≡ 16 }
{}
