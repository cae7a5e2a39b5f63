//! The readers of the entry table and of the tables of names of an LX module ("32-bit Linear
//! eXecutable Module Format": "Entry Table", "Import Module Name Table").
#![tactic(auto)]

mod bundles;
mod imports;
mod names;
mod refusal;

pub use bundles::{Entries, read_entries};
pub use imports::read_imports;
pub use names::{NameTable, read_names};
pub use refusal::TableRefusal;
