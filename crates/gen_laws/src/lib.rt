//! Laws of the modules that the generator makes: they can be written, they link, and they load.
#![tactic(auto)]

mod laws;

pub use laws::{
    definitions_mean, inputs_are_whole, inputs_link, linked_files_are_short, modules_have_totals,
    modules_load, objects_are_writable, objects_have_files,
};
