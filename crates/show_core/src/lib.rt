//! What is told of a file to a person: a module, an object file, a library or a resource file, by its first bytes. The readers say
//! what the file means, or what is wrong with it first.
#![tactic(auto)]

mod comments;
mod counts;
mod cut;
mod exports;
mod faulty;
mod flags;
mod header;
mod imported;
mod libraries;
mod modules;
mod objects;
mod other_parts;
mod outline;
mod pages;
mod printing;
mod records;
mod resources;
mod segments;
mod shown;
mod symbols;

pub use shown::{Shown, show};
