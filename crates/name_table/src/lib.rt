//! Tables by first appearance: each name once, in the order in which names first appear.
#![tactic(auto)]

mod key;
mod lent;
mod table;

pub use lent::LentTable;
pub use table::NameTable;
