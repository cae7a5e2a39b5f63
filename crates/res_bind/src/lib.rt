//! Resources bound to a module: the items of a resource file become one object more of its file, which the resource table
//! then names ("32-bit Linear eXecutable Module Format": "Resource Table").
#![tactic(auto)]

mod binding;
mod fields;
mod header;
mod items;
mod laws;
mod layout;
mod plan;
mod tables;
mod units;

pub use binding::bind_res;
pub use laws::old_bytes_stand;
