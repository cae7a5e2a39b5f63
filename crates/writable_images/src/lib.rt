//! Whether a module in memory can be written: what the writers of modules, of exports and of records ask, as tests of values.
#![tactic(auto)]

mod exports;
mod images;
mod records;

pub use exports::exports_fit;
pub use images::can_be_written;
pub use records::may_be_written;
