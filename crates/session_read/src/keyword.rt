//! The first words of statements.

ghost use Rattle.std.specs.Prelude.{◌≡◌, MatchOption, None};
ghost use Rattle.session_model.specs.Statements.{is_word, word_count};
ghost use Rattle.session_read.specs.Keywords.{spelled};

/// What a word of one argument begins.
#[derive(Clone, Copy)]
pub(crate) enum OneWord {
    Take,
    Process,
    Start,
    Load,
    Free,
}

/// What a word of two arguments begins.
#[derive(Clone, Copy)]
pub(crate) enum TwoWords {
    Failing,
    Query,
}

/// What a word begins after which a place stands.
#[derive(Clone, Copy)]
pub(crate) enum PlaceWord {
    Touch,
    Peek,
    Shared,
}

/// What a word begins after which a place and bytes stand.
#[derive(Clone, Copy)]
pub(crate) enum BytesWord {
    Write,
    Debug,
}

/// The first word of a statement, by what stands after it.
#[derive(Clone, Copy)]
pub(crate) enum Keyword {
    Exit,
    One(OneWord),
    Two(TwoWords),
    GetRes,
    Place(PlaceWord),
    Bytes(BytesWord),
    Build,
}

fn is_word(word: &[u8], other: &[u8]) -> bool
    ensures { result ≡ is_word word.now other.now }
{
    word == other
}

/// The statement that a word begins, if it begins one.
pub(crate) fn keyword_of(word: &[u8]) -> Option<Keyword>
    ensures { MatchOption result (word_count word.now ≡ None) (λ k. word.now ≡ spelled k) }
{
    if is_word(word, b"take") {
        Some(Keyword::One(OneWord::Take))
    } else if is_word(word, b"process") {
        Some(Keyword::One(OneWord::Process))
    } else if is_word(word, b"start") {
        Some(Keyword::One(OneWord::Start))
    } else if is_word(word, b"load") {
        Some(Keyword::One(OneWord::Load))
    } else if is_word(word, b"free") {
        Some(Keyword::One(OneWord::Free))
    } else if is_word(word, b"exit") {
        Some(Keyword::Exit)
    } else if is_word(word, b"query") {
        Some(Keyword::Two(TwoWords::Query))
    } else if is_word(word, b"failing") {
        Some(Keyword::Two(TwoWords::Failing))
    } else if is_word(word, b"getres") {
        Some(Keyword::GetRes)
    } else if is_word(word, b"touch") {
        Some(Keyword::Place(PlaceWord::Touch))
    } else if is_word(word, b"peek") {
        Some(Keyword::Place(PlaceWord::Peek))
    } else if is_word(word, b"shared") {
        Some(Keyword::Place(PlaceWord::Shared))
    } else if is_word(word, b"write") {
        Some(Keyword::Bytes(BytesWord::Write))
    } else if is_word(word, b"debug") {
        Some(Keyword::Bytes(BytesWord::Debug))
    } else if is_word(word, b"build") {
        Some(Keyword::Build)
    } else {
        None
    }
}
