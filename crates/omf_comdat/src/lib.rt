//! COMDATs ("C2h COMDAT"): the reader of their records, and the module that an unfinished one is with them.
#![tactic(auto)]

mod fields;
mod finish;
mod record;
mod segments;

pub use finish::finished;
pub use record::comdat_marked;
