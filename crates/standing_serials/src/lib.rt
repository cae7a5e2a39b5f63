//! The serial numbers of the residences that stand, by module, kept up to date entry by entry.
#![tactic(auto)]

mod serials;

pub use serials::StandingSerials;
