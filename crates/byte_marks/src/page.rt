//! The marks of the bytes of a page, a bit each.

ghost use Rattle.std.specs.Prelude.{◌≡◌, ℕ, ◌||◌, ◌≤◌, false, IsTrue, ◌↔◌};
ghost use Rattle.byte_marks.specs.Bits.{HasBit, is_from, is_set};

use crate::word::{WORD, has_any, with_all};

/// How many bytes a page has.
pub const PAGE: u32 = 4_096;

/// Which bytes of a page are marked.
#[derive(Clone, Copy)]
pub struct Page {
    words: [u64; 64],
}

impl Page {
    /// No byte is marked.
    pub fn new() -> Page
        ensures { (x : ℕ) → is_set result.words x ≡ false }
    {
        Page { words: [0; 64] }
    }

    /// Whether one of the bytes from one up to another is marked.
    pub fn has_any(&self, from: u32, past: u32) -> bool
        requires { past ≤ PAGE }
        ensures { IsTrue result ↔ HasBit (is_set self.now.words) from past }
    {
        let mut at = from;
        'words: while at < past {
            let first = at / WORD * WORD;
            let end = u32::min(past, first + WORD);
            if has_any(self.words[(at / WORD) as usize], at - first, end - first) {
                return true;
            }
            at = end;
        }
        false
    }

    /// Marks the bytes from one up to another.
    pub fn mark(&mut self, from: u32, past: u32)
        requires { past ≤ PAGE }
        ensures { (x : ℕ) → is_set self.new.words x ≡ (is_set self.old.words x || is_from from past x) }
    {
        let mut at = from;
        'words: while at < past {
            let first = at / WORD * WORD;
            let end = u32::min(past, first + WORD);
            let word = (at / WORD) as usize;
            self.words[word] = with_all(self.words[word], at - first, end - first);
            at = end;
        }
    }
}
