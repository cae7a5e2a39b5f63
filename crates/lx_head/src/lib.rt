//! The header of an LX module, and the entries of its object table and its object page table, both
//! ways ("32-bit Linear eXecutable Module Format": "LX Header", "Object Table", "Object Page Table").
#![tactic(auto)]

mod head;
mod reading;
mod rows;
mod tables;

pub use head::{Head, header_bytes, write_head};
pub use reading::read_head;
pub use tables::{object_at, object_head, page_at, page_entry, write_objects, write_pages};
