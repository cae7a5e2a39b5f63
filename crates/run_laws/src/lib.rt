//! What a session builds holds, wherever it is loaded, the bytes that its link means: so a run by the bytes of the files
//! is one by the object files' bytes.
#![tactic(auto)]

mod laws;

pub use laws::{
    built_bytes_are_held, built_modules_are_of_their_links, built_modules_have_no_resources,
    runs_by_links,
};
