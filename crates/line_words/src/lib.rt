//! The words of a line: text, numbers, names and bytes, with one blank between each two.
#![tactic(auto)]

mod words;

pub use words::{
    Word, push_bytes, push_inner, push_joined, push_leading, push_line, push_number, push_ordinal,
    push_spaced,
};
