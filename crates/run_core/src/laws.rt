//! The most turns of a command, written out.

ghost use Rattle.std.specs.Prelude.{◌≡◌};

use crate::tasks::MAX_TURNS;

/// A law: the most turns that one command takes.
pub fn turn_limit()
    ensures { MAX_TURNS ≡ 1048578 }
{}
