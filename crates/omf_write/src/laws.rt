//! Laws, each the contract of a function that does nothing.

ghost use Rattle.std.specs.Prelude.{◌≡◌};
ghost use Rattle.omf_write.specs.Written.{WritableModulesHaveFiles};

use crate::libraries::LIBRARY_LIMIT;

/// A law: the most bytes that a library may have. The definitions name the limit as the code does, so this law alone refuses a
/// wrong one.
pub fn library_limit()
    ensures { LIBRARY_LIMIT ≡ 16777216 }
{}

/// A law: each module that can be written has an object file that is read as it, the one that `object` writes where it finds the
/// memory.
pub fn writable_modules_have_files()
    ensures { WritableModulesHaveFiles }
{}
