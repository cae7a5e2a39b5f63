//! Lines for a reader.

ghost use Rattle.std.specs.Prelude.{◌≡◌, ◌++◌, [], IfOk, OnOk, string_bytes};
ghost use Rattle.std.specs.List.{All, flat_map};
ghost use Rattle.refusal_notes.specs.Lines.{IsOneLine, marked_line};

use std::alloc::{AllocError, Global};
use std::fmt::Display;

/// Texts of one line each, in their order.
#[derive(Drop)]
pub struct Lines {
    pub alloc: Global,
    texts: Vec<String>,
    /// Whether no memory was found for one of them, or for what it would tell. Then they are no text.
    is_lacking: bool,
    ghost plain: { All (λ text. IsOneLine (string_bytes text)) texts.items },
}

/// Adds a line of this format.
#[macro_export]
macro_rules! note {
    ($lines:expr; $($format:tt)*) => { $lines.note(format_args!($($format)*)) };
}

impl Lines {
    /// No lines yet.
    pub fn new(alloc: Global) -> Lines
        ensures { result.texts.items ≡ [] }
    {
        Lines {
            alloc,
            texts: Vec::new(alloc),
            is_lacking: false,
        }
    }

    // Adds a line. A text with a line's end in it, as a file's name may have, is left out.
    fn add(&mut self, text: String) -> Result<(), AllocError> {
        if !text.as_bytes().contains(&b'\n') {
            self.texts.push(text)?;
        }
        Ok(())
    }

    fn format<D: Display + Drop>(&mut self, words: D) -> Result<(), AllocError> {
        let text = String::format(self.alloc, words)?;
        self.add(text)
    }

    /// Adds a line of these words. That no memory is found is kept here, so that who adds lines need not ask after each.
    pub fn note<D: Display + Drop>(&mut self, words: D) {
        if self.format(words).is_err() {
            self.fail();
        }
    }

    /// Keeps that no memory was found for what was to be told.
    pub fn fail(&mut self) {
        self.is_lacking = true;
    }

    /// All lines after what each begins with, each with its end. Where one is lacking there is no text.
    pub fn text(&self, mark: &str) -> Result<String, AllocError>
        ensures { IfOk result (λ text. string_bytes text
            ≡ flat_map (λ line. marked_line mark.now (string_bytes line)) self.now.texts.items) }
    {
        if self.is_lacking {
            return Err(AllocError);
        }
        let mut text = String::new(self.alloc);
        for line in &self.texts {
            push_line(&mut text, mark, line.as_str())?;
        }
        Ok(text)
    }
}

// Adds a line after its mark.
fn push_line(text: &mut String, mark: &str, line: &str) -> Result<(), AllocError>
    ensures { OnOk result (string_bytes text.new ≡ string_bytes text.old ++ marked_line mark.now line.now) }
{
    text.push_str(mark)?;
    text.push_str(line)?;
    text.push_str("\n")
}
