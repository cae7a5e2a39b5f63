//! What a resource file of this profile means (docs/FORMATS.md, "Resource files"), and the file of a module to which its items are
//! bound ("32-bit Linear eXecutable Module Format": "Resource Table").
#![tactic(auto)]

mod flags;
mod item;
mod refusal;
mod worked;

pub use flags::RESOURCE_OBJECT_FLAGS;
pub use item::{FIELDS, MARK, ResItem};
pub use refusal::{BindRefusal, ResRefusal};
pub use worked::{faults_are_placed, file_is_bound, items_are_placed};
