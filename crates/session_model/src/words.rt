//! Words, kept as a text.

ghost use Rattle.std.specs.Prelude.{◌≡◌, IfOk};
ghost use Rattle.session_model.specs.Lines.{words_in};

use lx_types::NoMemory;
use std::alloc::Global;
use std::marker::Model;

/// The words of a text, which blanks and tabs separate. They are kept as the text: words of one byte, of which a line may
/// have millions, take no more memory than they take there.
pub struct Words {
    text: Vec<u8>,
}

// Dropped by a call, as lists are (`Seq`).
impl Drop for Words {
    fn drop(self) {
        let Words { text } = self;
        drop(text);
    }
}

impl Model for Words {
    ghost use Rattle.std.specs.Prelude.{List, ℕ};
    ghost use Rattle.session_model.specs.Lines.{words_in};

    ghost Value = { List (List ℕ) };

    ghost view = { λ w. words_in w.text.items };
}

impl Words {
    /// The words of a text, which is copied.
    pub fn of(alloc: Global, text: &[u8]) -> Result<Words, NoMemory>
        ensures { IfOk result (λ words. words ≡ words_in text.now) }
    {
        let text = Vec::from_slice(alloc, text)?;
        Ok(Words { text })
    }

    /// A text that has the words.
    pub fn text(&self) -> &[u8]
        ensures { words_in result.now ≡ self.now }
    {
        self.text.as_slice()
    }
}
