//! Files and a sink in memory, for tests: chosen loads, saves and puts fail, or none.
#![tactic(auto)]

mod memory_files;
mod memory_sink;
mod sure;

pub use memory_files::MemFiles;
pub use memory_sink::MemSink;
pub use sure::{SureFiles, SureSink};
