//! What the definitions say of lists of calls on a board.
#![tactic(auto)]

mod laws;

pub use laws::calls_are_answered;
