//! Fixup records of an LX module ("32-bit Linear eXecutable Module Format": "Fixup Record Table").
#![tactic(auto)]

mod fields;
mod laws;
mod links;
mod lists;
mod page;
mod reader;
mod record;
mod refusal;
mod sources;
mod spelling;
mod start;
mod worked;
mod writer;

pub use laws::records_keep_fixes;
pub use page::encode_page;
pub use reader::Records;
pub use refusal::RecRefusal;
pub use sources::{has_selector, source_size};
pub use start::records;
