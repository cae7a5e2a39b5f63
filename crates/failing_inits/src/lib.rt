//! Which initialisations fail in a run of a session over a library.
#![tactic(auto)]

mod failing;

pub use failing::failing_pairs;
