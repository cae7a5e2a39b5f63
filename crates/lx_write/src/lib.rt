//! Writes a linked module as the one file that it has ("32-bit Linear eXecutable Module Format").
#![tactic(auto)]

mod file;
mod header;
mod image;
mod laws;
mod names;
mod objects;
mod pages;
mod records;
mod sections;

pub use file::write_module;
pub use image::Image;
pub use laws::{link_images_are_written, written_records_fit, written_tables_fit};
pub use names::name_offsets;
pub use objects::page_count;
