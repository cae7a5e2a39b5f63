//! What the answer to a load of a file is read as: an object file, a library, a definition file, a module, a session, a
//! resource file or its bytes alone; or the refusal of a file that was not loaded, or has a fault.
#![tactic(auto)]

mod bind_files;
mod counts;
mod definitions;
mod export_files;
mod exporters;
mod inputs;
mod lines;
mod link_files;
mod loads;
mod module_files;
mod modules;
mod raw_files;
mod resources;
mod sessions;

pub use bind_files::{Binding, read_binding};
pub use export_files::read_exporters;
pub use exporters::Exporter;
pub use inputs::Input;
pub use link_files::{read_input_with, read_link_input, read_object};
pub use module_files::read_modules;
pub use raw_files::read_bytes;
pub use refusal_text::file_line;
pub use sessions::{read_module, read_session};
