//! What a module definition file says (Toolkit tools reference, "Module Definition Files"): its tokens, what each token says after
//! those before it, and what whole files mean.
//!
//! The definitions stand in specs/; the types of src/ are those that they speak of.
#![tactic(auto)]

mod draft;
mod keyword;
mod refusal;

pub use draft::{Draft, Owner, Part, Place, Reading, SegDraft, Size, Words};
pub use keyword::{Keyword, Pair};
pub use refusal::{DefKind, DefRefusal};
