//! Refusals, by their names with their fields.

ghost use Rattle.std.specs.Prelude.{◌≡◌, false, MatchOption};
ghost use Rattle.session_model.specs.Transcript.{refusal_words};
ghost use Rattle.check_model.specs.Told.{Has32, IsRefusal};
ghost use Rattle.transcript_read.specs.Words.{left_of};
ghost use Rattle.transcript_read.specs.Taken.{Tells};
ghost use Rattle.transcript_read.specs.Refusals.{is_word, is_plain_name, plain_name, IsPlainRefusal, IsFailedAt, IsFullBy, full_words, failed_words, touched_words, plain_words};

use crate::cursor::Words;
use load_model::Refusal;

/// An object that has no place.
#[derive(Clone, Copy)]
pub(crate) struct FullBy {
    number: u64,
    of: u32,
    object: u32,
    size: u32,
}

/// An initialisation that failed.
#[derive(Clone, Copy)]
pub(crate) struct FailedAt {
    number: u64,
    by: u32,
}

pub(crate) fn is_word(word: &[u8], other: &[u8]) -> bool
    ensures { result ≡ is_word word.now other.now }
{
    word == other
}

/// The refusal without fields that has a name.
pub(crate) fn plain_of(word: &[u8]) -> Option<Refusal>
    ensures { MatchOption result (is_plain_name word.now ≡ false) (λ r. IsPlainRefusal r × (word.now ≡ plain_name r)) }
{
    if is_word(word, b"Ended") {
        Some(Refusal::Ended)
    } else if is_word(word, b"Worn") {
        Some(Refusal::Worn)
    } else if is_word(word, b"Started") {
        Some(Refusal::Started)
    } else if is_word(word, b"NoModule") {
        Some(Refusal::NoModule)
    } else if is_word(word, b"NotLibrary") {
        Some(Refusal::NotLibrary)
    } else if is_word(word, b"NotProgram") {
        Some(Refusal::NotProgram)
    } else if is_word(word, b"NoEntry") {
        Some(Refusal::NoEntry)
    } else if is_word(word, b"ForwardLoop") {
        Some(Refusal::ForwardLoop)
    } else if is_word(word, b"Gate286") {
        Some(Refusal::Gate286)
    } else if is_word(word, b"CountFull") {
        Some(Refusal::CountFull)
    } else if is_word(word, b"NotHeld") {
        Some(Refusal::NotHeld)
    } else if is_word(word, b"NotAttached") {
        Some(Refusal::NotAttached)
    } else if is_word(word, b"Range") {
        Some(Refusal::Range)
    } else if is_word(word, b"ReadOnly") {
        Some(Refusal::ReadOnly)
    } else if is_word(word, b"IsShared") {
        Some(Refusal::IsShared)
    } else if is_word(word, b"NotShared") {
        Some(Refusal::NotShared)
    } else if is_word(word, b"NotCode") {
        Some(Refusal::NotCode)
    } else if is_word(word, b"Invalid") {
        Some(Refusal::Invalid)
    } else if is_word(word, b"NoResource") {
        Some(Refusal::NoResource)
    } else {
        None
    }
}

fn plain(words: Words<'_>) -> Option<Refusal>
    ensures { Tells plain_words IsPlainRefusal result (left_of words.entry) }
{
    let mut words = words;
    let refusal = words.plain_refusal();
    words.ending(refusal)
}

fn arena_full(words: Words<'_>) -> Option<FullBy>
    ensures { Tells full_words IsFullBy result (left_of words.entry) }
{
    let mut words = words;
    words.known(b"ArenaFull");
    let number = words.count();
    let of = words.number();
    let object = words.number();
    let size = words.number();
    words.ending(FullBy {
        number,
        of,
        object,
        size,
    })
}

fn init_failed(words: Words<'_>) -> Option<FailedAt>
    ensures { Tells failed_words IsFailedAt result (left_of words.entry) }
{
    let mut words = words;
    words.known(b"InitFailed");
    let number = words.count();
    let by = words.number();
    words.ending(FailedAt { number, by })
}

fn not_touched(words: Words<'_>) -> Option<u32>
    ensures { Tells touched_words Has32 result (left_of words.entry) }
{
    let mut words = words;
    words.known(b"NotTouched");
    let page = words.number();
    words.ending(page)
}

/// A refusal.
pub(crate) fn refusal(words: Words<'_>) -> Option<Refusal>
    ensures { Tells refusal_words IsRefusal result (left_of words.entry) }
{
    if let Some(refusal) = plain(words) {
        return Some(refusal);
    }
    if let Some(page) = not_touched(words) {
        return Some(Refusal::NotTouched { page });
    }
    if let Some(FailedAt { number, by }) = init_failed(words) {
        return Some(Refusal::InitFailed { number, by });
    }
    let Some(
        FullBy {
            number,
            of,
            object,
            size,
        },
    ) = arena_full(words)
    else {
        return None;
    };
    Some(Refusal::ArenaFull {
        number,
        of,
        object,
        size,
    })
}
