//! Who reaches what: how often each process has loaded each module of a library, and what a load or a free
//! changes in it.
#![tactic(auto)]

mod changes;
mod count_laws;
mod counting;
mod laws;
mod load_counts;
mod one_process;
mod refs;

pub use changes::{CountFull, Gained, Leaving, Lost};
pub use count_laws::loads_are_counted;
pub use laws::legal_counts_are_kept;
pub use load_counts::LoadCounts;
pub use refs::Refs;
