//! What a line says.

ghost use Rattle.std.specs.Prelude.{◌≡◌, ◌∷◌, IfOk, codes};
ghost use Rattle.lx_types.specs.Answers.{Answers};
ghost use Rattle.lx_types.specs.Names.{IsName};
ghost use Rattle.session_model.specs.Lines.{words_in};
ghost use Rattle.session_model.specs.Statements.{by_count, word_count, two_words, three_words, four_words, five_words, is_long, key_in, wrong, reading_of};
ghost use Rattle.session_read.specs.Keywords.{spelled, one_spelled, two_spelled, place_spelled, bytes_spelled};
ghost use Rattle.session_read.specs.Told.{reading_told, Says};

use crate::arguments::{
    FourArguments, ThreeArguments, TwoArguments, four_of, has_long, one_of, three_of, two_of,
};
use crate::keyword::{BytesWord, Keyword, OneWord, PlaceWord, TwoWords, keyword_of};
use crate::lines::{first_word, is_allowed};
use crate::numbers::{hex_in, number_in, process_in, word_in};
use crate::places::{Span, span_in};
use crate::said::Said;
use load_model::{Command, Place};
use lx_types::{EntryKey, Fail, Name, NoMemory};
use session_model::{FailingLine, MAX_BYTES, ModLine, SessionKind, Words};
use std::alloc::Global;

fn one_word(alloc: Global, word: OneWord, arg: &[u8]) -> Result<Said, Fail<SessionKind>>
    requires { IsName arg.now }
    ensures { Says (two_words (one_spelled word) arg.now) result }
{
    match word {
        OneWord::Process => match number_in(arg) {
            Some(pid) => Ok(Said::Process(pid)),
            None => Err(Fail::Said(SessionKind::Number)),
        },
        OneWord::Take => {
            let file = Name::of_short(alloc, arg)?;
            Ok(Said::Module(ModLine::Take { file }))
        }
        OneWord::Start => Ok(Said::Command(Command::Start(Name::of_short(alloc, arg)?))),
        OneWord::Load => Ok(Said::Command(Command::Load(Name::of_short(alloc, arg)?))),
        OneWord::Free => Ok(Said::Command(Command::Free(Name::of_short(alloc, arg)?))),
    }
}

// `@` and an ordinal, or a name.
fn key_in(alloc: Global, word: &[u8]) -> Result<Option<EntryKey>, NoMemory>
    requires { IsName word.now }
    ensures { IfOk result (λ key. key ≡ key_in word.now) }
{
    match word {
        [b'@', digits @ ..] => match number_in(digits) {
            Some(ordinal) => Ok(Some(EntryKey::Ordinal(ordinal))),
            None => Ok(None),
        },
        _ => Ok(Some(EntryKey::Named(Name::of_short(alloc, word)?))),
    }
}

fn two_words(
    alloc: Global,
    word: TwoWords,
    name: &[u8],
    last: &[u8],
) -> Result<Said, Fail<SessionKind>>
    requires name { IsName name.now }
    requires last { IsName last.now }
    ensures { Says (three_words (two_spelled word) name.now last.now) result }
{
    match word {
        TwoWords::Failing => {
            let Some(pid) = process_in(last) else {
                return Err(Fail::Said(SessionKind::Number));
            };
            let module = Name::of_short(alloc, name)?;
            Ok(Said::Failing(FailingLine { module, pid }))
        }
        TwoWords::Query => {
            let Some(key) = key_in(alloc, last)? else {
                return Err(Fail::Said(SessionKind::Number));
            };
            let module = Name::of_short(alloc, name)?;
            Ok(Said::Command(Command::Query(module, key)))
        }
    }
}

fn getres(alloc: Global, args: &ThreeArguments<'_>) -> Result<Said, Fail<SessionKind>>
    requires { IsName args.now.first.now }
    ensures { Says (four_words (codes "getres") args.now.first.now args.now.second.now args.now.third.now) result }
{
    let Some(ty) = word_in(args.second) else {
        return Err(Fail::Said(SessionKind::Number));
    };
    let Some(id) = word_in(args.third) else {
        return Err(Fail::Said(SessionKind::Number));
    };
    let module = Name::of_short(alloc, args.first)?;
    Ok(Said::Command(Command::GetRes(module, ty, id)))
}

fn place(
    alloc: Global,
    word: PlaceWord,
    args: &FourArguments<'_>,
) -> Result<Said, Fail<SessionKind>>
    requires { IsName args.now.name.now }
    ensures { Says (five_words (place_spelled word) args.now.name.now args.now.object.now args.now.offset.now args.now.last.now) result }
{
    let most = match word {
        PlaceWord::Touch => None,
        PlaceWord::Peek | PlaceWord::Shared => Some(MAX_BYTES),
    };
    let Some(
        Span {
            object,
            offset,
            len,
        },
    ) = span_in(most, args)
    else {
        return Err(Fail::Said(SessionKind::Number));
    };
    let place = Place {
        module: Name::of_short(alloc, args.name)?,
        object,
        offset,
        len,
    };
    Ok(Said::Command(match word {
        PlaceWord::Touch => Command::Touch(place),
        PlaceWord::Peek => Command::Peek(place),
        PlaceWord::Shared => Command::Shared(place),
    }))
}

// A number that is wrong comes before bytes that are.
fn bytes(
    alloc: Global,
    word: BytesWord,
    args: &FourArguments<'_>,
) -> Result<Said, Fail<SessionKind>>
    requires { IsName args.now.name.now }
    ensures { Says (five_words (bytes_spelled word) args.now.name.now args.now.object.now args.now.offset.now args.now.last.now) result }
{
    let Some(object) = number_in(args.object) else {
        return Err(Fail::Said(SessionKind::Number));
    };
    let Some(offset) = number_in(args.offset) else {
        return Err(Fail::Said(SessionKind::Number));
    };
    let Some(bytes) = hex_in(alloc, args.last)? else {
        return Err(Fail::Said(SessionKind::Hex));
    };
    let place = Place {
        module: Name::of_short(alloc, args.name)?,
        object,
        offset,
        len: bytes.as_slice().len() as u32,
    };
    Ok(Said::Command(match word {
        BytesWord::Write => Command::Write(place, bytes),
        BytesWord::Debug => Command::Debug(place, bytes),
    }))
}

fn build(alloc: Global, args: &[u8]) -> Result<Said, Fail<SessionKind>>
    ensures { Says (by_count (word_count (codes "build")) (codes "build" ∷ words_in args.now)) result }
{
    let Some(stem) = first_word(args) else {
        return Err(Fail::Said(SessionKind::Count));
    };
    let Some(def) = first_word(stem.after) else {
        return Err(Fail::Said(SessionKind::Count));
    };
    if first_word(def.after).is_none() || has_long(args) {
        return Err(Fail::Said(SessionKind::Count));
    }
    Ok(Said::Module(ModLine::Build {
        stem: Name::of_short(alloc, stem.word)?,
        def: Name::of_short(alloc, def.word)?,
        files: Words::of(alloc, def.after)?,
    }))
}

// The statement that a keyword begins.
fn statement(alloc: Global, keyword: Keyword, args: &[u8]) -> Result<Said, Fail<SessionKind>>
    ensures { Says (by_count (word_count (spelled keyword)) (spelled keyword ∷ words_in args.now)) result }
{
    match keyword {
        Keyword::Exit => match first_word(args) {
            Some(_) => Err(Fail::Said(SessionKind::Count)),
            None => Ok(Said::Command(Command::Exit)),
        },
        Keyword::One(word) => match one_of(false, args) {
            Some(arg) => one_word(alloc, word, arg),
            None => Err(Fail::Said(SessionKind::Count)),
        },
        Keyword::Two(word) => match two_of(false, args) {
            Some(TwoArguments { first, second }) => two_words(alloc, word, first, second),
            None => Err(Fail::Said(SessionKind::Count)),
        },
        Keyword::GetRes => match three_of(false, args) {
            Some(args) => getres(alloc, &args),
            None => Err(Fail::Said(SessionKind::Count)),
        },
        Keyword::Place(word) => match four_of(false, args) {
            Some(args) => place(alloc, word, &args),
            None => Err(Fail::Said(SessionKind::Count)),
        },
        Keyword::Bytes(word) => match four_of(true, args) {
            Some(args) => bytes(alloc, word, &args),
            None => Err(Fail::Said(SessionKind::Count)),
        },
        Keyword::Build => build(alloc, args),
    }
}

/// What a line says: nothing, where it is empty or a comment, or a statement. Its bytes are judged first,
/// in a comment too.
pub(crate) fn read_line(alloc: Global, line: &[u8]) -> Result<Option<Said>, Fail<SessionKind>>
    ensures { Answers result (λ said. reading_of line.now ≡ reading_told said) (λ kind. reading_of line.now ≡ wrong kind) }
{
    if !is_allowed(line) {
        return Err(Fail::Said(SessionKind::Byte));
    }
    let Some(first) = first_word(line) else {
        return Ok(None);
    };
    if first.word[0] == b'#' {
        return Ok(None);
    }
    let Some(keyword) = keyword_of(first.word) else {
        return Err(Fail::Said(SessionKind::Statement));
    };
    match statement(alloc, keyword, first.after) {
        Ok(said) => Ok(Some(said)),
        Err(fail) => Err(fail),
    }
}
