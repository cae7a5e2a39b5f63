//! Laws over whole links: the file of every input that links is read again as the link, and wherever its module is loaded,
//! its bytes are those that the link means; its entry points are the exports of the link, and an import library binds the
//! names of a definition file to them.
#![tactic(auto)]

mod laws;
mod ranges;

pub use laws::{
    entries_are_exports, imports_are_bound, linked_bytes_are_loaded, linked_files_are_read,
    linked_files_mean_their_links, linked_images_fit, pairs_reach_exports, plain_bytes_are_loaded,
};
pub use ranges::input_range;
