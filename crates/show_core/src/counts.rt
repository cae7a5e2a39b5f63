//! How many there are of each kind, and kinds in words.

use crate::line;
use crate::outline::{Line, Told};
use line_words::Word;
use std::alloc::Global;

/// How often each kind of a table comes.
pub type Counts = Vec<u64>;

/// A kind of a table is told with how often it comes.
impl Told<Counts> for &'static str {
    fn line<'x>(&'x self, alloc: Global, number: u64, counts: &'x Counts) -> Line {
        let place = number.saturating_sub(1) as usize;
        line!(alloc; Text self.as_bytes(), Count counts.get(place).copied().unwrap_or(0))
    }
}

/// One more of the kind at a place of the table, where there is such a place.
pub fn bump(counts: &mut [u64], place: usize) {
    if let Some(count) = counts.get_mut(place) {
        *count = count.wrapping_add(1);
    }
}

/// The word at a place of a table.
pub fn word_at(table: &[&'static str], place: usize) -> &'static [u8] {
    match table.get(place) {
        Some(word) => word.as_bytes(),
        None => b"unknown",
    }
}

/// A word where it is so, and else none.
pub fn word_if(is_so: bool, word: &'static str) -> &'static [u8] {
    if is_so { word.as_bytes() } else { b"" }
}
