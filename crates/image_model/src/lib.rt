//! What file a link writes: the written module as a value, its one file, and laws over both.
#![tactic(auto)]

mod laws;
mod worked;

pub use laws::{files_read_again, link_tables_fit, links_read_again, sections_read_again};
