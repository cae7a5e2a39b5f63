//! Pages with their fixups: the bytes that a page of a module has at the bases of a load ("32-bit Linear eXecutable
//! Module Format": "Object Page Table", "Fixup Record Table").
#![tactic(auto)]

mod bases;
mod field;
mod fixable;
mod fixed;
mod fixing;
mod laws;
mod lent;
mod marks;
mod owned;
mod putting;
mod raw;
mod rights;
mod steps;

pub use fixable::is_fixable;
pub use fixed::FixedPage;
pub use fixing::{fix_owned, fix_page, fix_private};
pub use laws::fixable_pages_are_found;
pub use lent::LentLibrary;
pub use owned::OwnLibrary;
pub use rights::{FixRight, Rights};
pub use steps::Steps;
