//! The records of names, segments, groups and symbols, each read after the records before it
//! ("Relocatable Object Module Format").
#![tactic(auto)]

mod comments;
mod communals;
mod externals;
mod group;
mod indices;
mod lnames;
mod publics;
mod segment;

pub use comments::coment;
pub use communals::comdef;
pub use externals::extdef;
pub use group::grpdef;
pub use indices::{is_debug_segment, plain_segment, text};
pub use lnames::names;
pub use publics::pubdef;
pub use segment::segdef;
