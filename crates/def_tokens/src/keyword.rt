//! The words of the statements (Toolkit tools reference, "Module Definition Files").

ghost use Rattle.std.specs.Prelude.{◌≡◌, map, find, option_copied};
ghost use Rattle.def_model.specs.Keywords.{same_letters, keyword_among, keyword_of};
ghost use Rattle.def_tokens.specs.WordLengths.{words_of_len};

use def_model::{Keyword, Pair};

// The words, each with the keyword that it is, in a table for each length.
static WORDS_OF_3: [(&[u8], Keyword); 1] = [(b"OLD", Keyword::Unread)];

static WORDS_OF_4: [(&[u8], Keyword); 7] = [
    (b"NAME", Keyword::Name),
    (b"CODE", Keyword::Code),
    (b"DATA", Keyword::Data),
    (b"BASE", Keyword::Base),
    (b"STUB", Keyword::Unread),
    (b"IOPL", Keyword::Attribute(Pair::Iopl, true)),
    (b"NONE", Keyword::NoEffect),
];

static WORDS_OF_5: [(&[u8], Keyword); 2] = [
    (b"CLASS", Keyword::Class),
    (b"FIXED", Keyword::NoEffect),
];

static WORDS_OF_6: [(&[u8], Keyword); 4] = [
    (b"NODATA", Keyword::NoData),
    (b"SHARED", Keyword::Attribute(Pair::Shared, true)),
    (b"SINGLE", Keyword::Attribute(Pair::Shared, true)),
    (b"NOIOPL", Keyword::Attribute(Pair::Iopl, false)),
];

static WORDS_OF_7: [(&[u8], Keyword); 6] = [
    (b"LIBRARY", Keyword::Library),
    (b"EXPORTS", Keyword::Exports),
    (b"IMPORTS", Keyword::Imports),
    (b"EXETYPE", Keyword::ExeType),
    (b"VIRTUAL", Keyword::Unread),
    (b"PRELOAD", Keyword::Attribute(Pair::Preload, true)),
];

static WORDS_OF_8: [(&[u8], Keyword); 7] = [
    (b"SEGMENTS", Keyword::Segments),
    (b"HEAPSIZE", Keyword::HeapSize),
    (b"PROTMODE", Keyword::ProtMode),
    (b"PHYSICAL", Keyword::Unread),
    (b"READONLY", Keyword::Attribute(Pair::Write, false)),
    (b"MULTIPLE", Keyword::Attribute(Pair::Shared, false)),
    (b"MOVEABLE", Keyword::NoEffect),
];

static WORDS_OF_9: [(&[u8], Keyword); 5] = [
    (b"STACKSIZE", Keyword::StackSize),
    (b"WINDOWAPI", Keyword::Window),
    (b"READWRITE", Keyword::Attribute(Pair::Write, true)),
    (b"NONSHARED", Keyword::Attribute(Pair::Shared, false)),
    (b"SWAPPABLE", Keyword::NoEffect),
];

static WORDS_OF_10: [(&[u8], Keyword); 4] = [
    (b"INITGLOBAL", Keyword::Init { each: false }),
    (b"TERMGLOBAL", Keyword::Term { each: false }),
    (b"LOADONCALL", Keyword::Attribute(Pair::Preload, false)),
    (b"CONFORMING", Keyword::Attribute(Pair::Conforming, true)),
];

static WORDS_OF_11: [(&[u8], Keyword); 4] = [
    (b"DESCRIPTION", Keyword::Description),
    (b"EXECUTEREAD", Keyword::Attribute(Pair::Read, true)),
    (b"EXECUTEONLY", Keyword::Attribute(Pair::Read, false)),
    (b"DISCARDABLE", Keyword::NoEffect),
];

static WORDS_OF_12: [(&[u8], Keyword); 4] = [
    (b"WINDOWCOMPAT", Keyword::Window),
    (b"INITINSTANCE", Keyword::Init { each: true }),
    (b"TERMINSTANCE", Keyword::Term { each: true }),
    (b"RESIDENTNAME", Keyword::ResidentName),
];

static WORDS_OF_13: [(&[u8], Keyword); 1] = [(
    b"NONCONFORMING",
    Keyword::Attribute(Pair::Conforming, false),
)];

static WORDS_OF_14: [(&[u8], Keyword); 1] = [(b"NONDISCARDABLE", Keyword::NoEffect)];

static WORDS_OF_15: [(&[u8], Keyword); 1] = [(b"NOTWINDOWCOMPAT", Keyword::Window)];

// The words of so many letters.
fn words_of_len(len: usize) -> &'static [(&'static [u8], Keyword)]
    ensures { map (λ entry. (entry.0.now, entry.1)) result.now ≡ words_of_len len }
{
    match len {
        3 => &WORDS_OF_3,
        4 => &WORDS_OF_4,
        5 => &WORDS_OF_5,
        6 => &WORDS_OF_6,
        7 => &WORDS_OF_7,
        8 => &WORDS_OF_8,
        9 => &WORDS_OF_9,
        10 => &WORDS_OF_10,
        11 => &WORDS_OF_11,
        12 => &WORDS_OF_12,
        13 => &WORDS_OF_13,
        14 => &WORDS_OF_14,
        15 => &WORDS_OF_15,
        _ => &[],
    }
}

// The first of these entries whose word differs from this one in the case of letters at most.
fn entry_among<'a>(
    words: &'a [(&'static [u8], Keyword)],
    word: &[u8],
) -> Option<&'a (&'static [u8], Keyword)>
    ensures { option_copied result ≡ find (λ entry. same_letters entry.0.now word.now) words.entry.now }
{
    words
        .iter()
        .find(|entry| entry.0.eq_ignore_ascii_case(word))
}

// The keyword of that entry.
fn keyword_among(words: &[(&'static [u8], Keyword)], word: &[u8]) -> Option<Keyword>
    ensures { result ≡ keyword_among (map (λ entry. (entry.0.now, entry.1)) words.now) word.now }
{
    let entry = entry_among(words, word)?;
    Some(entry.1)
}

// The keyword that is written so, in any case.
pub(crate) fn keyword_of(word: &[u8]) -> Option<Keyword>
    ensures { result ≡ keyword_of word.now }
{
    keyword_among(words_of_len(word.len()), word)
}
