//! Names of a session as the texts by which files are named.
ghost use Rattle.std.specs.Prelude.{◌≡◌, IfOk, map, string_bytes};
ghost use Rattle.std.specs.List.{All};
ghost use Rattle.session_text.specs.Writable.{IsPlain};

use lx_types::{Name, NoMemory};
use session_model::Words;
use session_read::first_word;
use std::alloc::Global;
use std::str::from_utf8;

// A word as a text. One of a session has visible ASCII characters alone.
fn text_in(word: &[u8]) -> &str
    requires { IsPlain word.now }
    ensures { result.now ≡ word.now }
{
    match from_utf8(word) {
        Ok(text) => text,
        Err(_) => unreachable!(),
    }
}

/// The same of a name.
pub fn text_of(name: &Name) -> &str
    requires { IsPlain name.now }
    ensures { result.now ≡ name.now }
{
    text_in(name.bytes())
}

/// The same of words.
pub fn texts_of(alloc: Global, words: &Words) -> Result<Vec<String>, NoMemory>
    requires { All IsPlain words.now }
    ensures { IfOk result (λ texts. map string_bytes texts.items ≡ words.now) }
{
    let mut texts = Vec::new(alloc);
    let mut left = words.text();
    while let Some(cut) = first_word(left) {
        texts.push(String::from_str(alloc, text_in(cut.word))?)?;
        left = cut.after;
    }
    Ok(texts)
}
