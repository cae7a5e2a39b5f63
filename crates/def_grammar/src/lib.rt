//! The grammar of module definition files, stated apart from any reader of them, and that reading a file is this grammar
//! (Toolkit tools reference, "Module Definition Files").
#![tactic(auto)]

mod laws;

pub use laws::{
    borders_are_known, faults_are_the_first, grammatical_files_are_read, read_files_are_grammatical,
};
