//! The values of single words.

ghost use Rattle.std.specs.Prelude.{◌≡◌, ◌↔◌, codes, decimal, IsTrue};
ghost use Rattle.session_model.specs.Transcript.{how_text, kind_text};
ghost use Rattle.check_model.specs.Told.{Has32, Has64};
ghost use Rattle.dump_model.specs.Words.{Tells};
ghost use Rattle.transcript_lines.specs.Lines.{IsProcess};
ghost use Rattle.transcript_read.specs.Rows.{Any, process_word};

use itoa::Buffer;
use load_model::{CallKind, How};
use lx_types::MAX_PROCESSES;
use std::str;

// Whether it is the text of the number, and not another one that has its value.
fn is_count_text(word: &[u8], n: u64) -> bool
    ensures { IsTrue result ↔ (word.now ≡ decimal n) }
{
    Buffer::new().format(n).as_bytes() == word
}

/// The number of 64 bits that a word is in decimal.
pub(crate) fn count_of(word: &[u8]) -> Option<u64>
    ensures { Tells decimal Has64 result word.now }
{
    let Ok(text) = str::from_utf8(word) else {
        return None;
    };
    let Ok(n) = text.parse::<u64>() else {
        return None;
    };
    if is_count_text(word, n) {
        Some(n)
    } else {
        None
    }
}

/// The number of 32 bits that a word is in decimal.
pub(crate) fn number_of(word: &[u8]) -> Option<u32>
    ensures { Tells decimal Has32 result word.now }
{
    let n = count_of(word)?;
    if n <= u64::from(u32::MAX) {
        Some(n as u32)
    } else {
        None
    }
}

/// The number of a script that a word is in decimal.
pub(crate) fn script_of(word: &[u8]) -> Option<u32>
    ensures { Tells decimal IsProcess result word.now }
{
    let n = number_of(word)?;
    if n < 1 {
        return None;
    }
    if n > MAX_PROCESSES {
        return None;
    }
    Some(n)
}

/// The process that a word names, by its script's number.
pub(crate) fn process_of(word: &[u8]) -> Option<u32>
    ensures { Tells process_word IsProcess result word.now }
{
    match word {
        [b'P', digits @ ..] => script_of(digits),
        _ => None,
    }
}

/// `start` or `load`.
pub(crate) fn how_of(word: &[u8]) -> Option<How>
    ensures { Tells how_text Any result word.now }
{
    if word == b"start".as_slice() {
        Some(How::Start)
    } else if word == b"load".as_slice() {
        Some(How::Load)
    } else {
        None
    }
}

/// The kind of a call.
pub(crate) fn kind_of(word: &[u8]) -> Option<CallKind>
    ensures { Tells kind_text Any result word.now }
{
    if word == b"init".as_slice() {
        Some(CallKind::Init)
    } else if word == b"term".as_slice() {
        Some(CallKind::Term)
    } else if word == b"main".as_slice() {
        Some(CallKind::Main)
    } else {
        None
    }
}
