//! What the linker needs of the world outside: files by name, a sink for its text, and a gate before each command
//! of a session. Each is a trait with a written meaning, so that the code above is proved once for real files and
//! for files in memory.
#![tactic(auto)]

mod disk;
mod files;
mod gate;
mod log;
mod sink;
mod whole_save;

pub use disk::{DiskFiles, StdSink};
pub use files::{Files, LoadFault, SaveFault};
pub use gate::{Gate, NoGate};
pub use log::{Log, Note};
pub use sink::{Sink, SinkFailed};
