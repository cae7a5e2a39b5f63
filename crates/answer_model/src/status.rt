//! The statuses with which the program ends.
ghost use Rattle.std.specs.Prelude.{◌≡◌};

/// All that was asked for is put, and saved.
pub const DONE: u8 = 0;

/// A file is absent, too long or has a fault, or what is asked for is refused.
pub const REFUSED: u8 = 1;

/// The words are no command.
pub const USAGE: u8 = 2;

/// Reading a file failed.
pub const READ_FAILED: u8 = 3;

/// Saving a file failed, or putting the text.
pub const WRITE_FAILED: u8 = 4;

/// There is no memory.
pub const NO_MEMORY: u8 = 8;

/// The numbers that a caller of the program sees.
pub fn statuses_are()
    ensures done { DONE ≡ 0 }
    ensures refused { REFUSED ≡ 1 }
    ensures usage { USAGE ≡ 2 }
    ensures read_failed { READ_FAILED ≡ 3 }
    ensures write_failed { WRITE_FAILED ≡ 4 }
    ensures no_memory { NO_MEMORY ≡ 8 }
{}
