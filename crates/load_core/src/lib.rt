//! The board of a loader: one history of what its processes did, which is legal by the board's type, and the
//! residences that stand.
#![tactic(auto)]

mod acts;
mod all_bases;
mod answers;
mod arrivals;
mod board;
mod bytes;
mod faults;
mod leaves;
mod new_residences;
mod residence_parts;
mod sharing;

pub use answers::{Answer, Claim, Loaded};
pub use board::Board;
