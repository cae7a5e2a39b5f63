//! The commands that make one file or one text of the files that they load: `link`, `implib`, `bind`, `image`, `map`, `memory`,
//! `dump` and `show`. Each is a call over any files, which tells what is said, with the refusal where that is what is said.
#![tactic(auto)]

pub mod bind;
pub mod dump;
mod held;
pub mod image;
pub mod implib;
mod library;
pub mod link;
mod map;
mod memory;
mod refusals;
mod saving;
pub mod show;
mod text;
mod told;
mod unloaded;

pub use map::show_map;
pub use memory::show_memory;
pub use refusals::{in_full, refused_as, ungathered};
pub use told::Told;
