//! What the definitions of sessions say together.

ghost use Rattle.std.specs.Prelude.{◌≡◌};
ghost use Rattle.session_model.specs.Bounds.{SessionsAreBounded};
ghost use Rattle.session_model.specs.Laws.{MeansOne, MeansOrFails, FaultMeansNone, FaultIsFirst};
ghost use Rattle.session_model.specs.MergeLaws.{MergeHasHistory, StatesAreTheHistorys, UsesByPages, HeldMergesAlike};

use crate::limits::{MAX_BYTES, MAX_COMMANDS, MAX_WORD};

/// Bytes are one session at most; they are one or have a fault, and not both; and the fault is that of
/// the first line that is wrong.
pub fn sessions_are_one()
    ensures one { MeansOne }
    ensures either { MeansOrFails }
    ensures not_both { FaultMeansNone }
    ensures first { FaultIsFirst }
{}

/// The entries of a merge are its history, and its states are the history's but for touched pages, of which
/// an entry uses which pages its own process touched.
pub fn merges_are_histories()
    ensures entries { MergeHasHistory }
    ensures states { StatesAreTheHistorys }
    ensures uses { UsesByPages }
{}

/// Where two ways to say what objects hold agree along a history, the same steady lines merge with it by both.
pub fn agreement_is_enough()
    ensures { HeldMergesAlike }
{}

/// A session that bytes say is within bounds: how many scripts and commands, which numbers, names and lengths.
pub fn sessions_are_bounded()
    ensures { SessionsAreBounded }
{}

/// The numbers that bound a session, written out.
pub fn session_limits()
    ensures commands { MAX_COMMANDS ≡ 1024 }
    ensures bytes { MAX_BYTES ≡ 4096 }
    ensures word { MAX_WORD ≡ 255 }
{}
