//! Records of an object file, one after another.
#![tactic(auto)]

pub mod comment_class;
mod frame;
mod laws;
mod omf_record;
pub mod record_type;
mod refusal;

pub use frame::next_record;
pub use laws::{comment_numbers, cut_off_or_whole, one_record, type_numbers};
pub use omf_record::Rec;
pub use refusal::FrameRefusal;
