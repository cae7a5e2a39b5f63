//! Writes module definition files (Toolkit tools reference, "Module Definition Files").
#![tactic(auto)]

mod laws;
mod quotable;
mod spelled;
mod spelling;
mod writing;

pub use laws::worked_texts;
pub use quotable::is_quotable;
pub use writing::write_def;
