//! The words after the first word of a statement: as many as it has, of which none is too long. The last
//! one may be long where it has the bytes of a write.

ghost use Rattle.std.specs.Prelude.{◌≡◌, option_map, IfSome, false};
ghost use Rattle.std.specs.List.{list_any};
ghost use Rattle.lx_types.specs.Names.{IsName};
ghost use Rattle.session_model.specs.Lines.{words_in};
ghost use Rattle.session_model.specs.Statements.{is_long};
ghost use Rattle.session_read.specs.Arguments.{one_of, two_of, three_of, four_of};
ghost use Rattle.session_read.specs.Seen.{two_seen, three_seen, four_seen};

use crate::lines::first_word;
use session_model::MAX_WORD;

#[derive(Clone, Copy)]
pub(crate) struct TwoArguments<'a> {
    pub first: &'a [u8],
    pub second: &'a [u8],
}

#[derive(Clone, Copy)]
pub(crate) struct ThreeArguments<'a> {
    pub first: &'a [u8],
    pub second: &'a [u8],
    pub third: &'a [u8],
}

/// A module, an object, an offset, and what the statement has last.
#[derive(Clone, Copy)]
pub(crate) struct FourArguments<'a> {
    pub name: &'a [u8],
    pub object: &'a [u8],
    pub offset: &'a [u8],
    pub last: &'a [u8],
}

pub(crate) fn is_long(word: &[u8]) -> bool
    ensures { result ≡ is_long word.now }
{
    word.len() > MAX_WORD
}

pub(crate) fn one_of(long: bool, line: &[u8]) -> Option<&[u8]>
    ensures word { option_map (λ a. a.now) result ≡ one_of long (words_in line.now) }
    ensures short { IfSome result (λ a. long ≡ false → IsName a.now) }
{
    let only = first_word(line)?;
    if first_word(only.after).is_some() {
        return None;
    }
    if is_long(only.word) && !long {
        return None;
    }
    Some(only.word)
}

pub(crate) fn two_of(long: bool, line: &[u8]) -> Option<TwoArguments<'_>>
    ensures words { option_map two_seen result ≡ two_of long (words_in line.now) }
    ensures short { IfSome result (λ a. IsName a.first.now × (long ≡ false → IsName a.second.now)) }
{
    let first = first_word(line)?;
    if is_long(first.word) {
        return None;
    }
    let second = one_of(long, first.after)?;
    Some(TwoArguments {
        first: first.word,
        second,
    })
}

pub(crate) fn three_of(long: bool, line: &[u8]) -> Option<ThreeArguments<'_>>
    ensures words { option_map three_seen result ≡ three_of long (words_in line.now) }
    ensures short { IfSome result (λ a. IsName a.first.now) }
{
    let first = first_word(line)?;
    if is_long(first.word) {
        return None;
    }
    let TwoArguments {
        first: second,
        second: third,
    } = two_of(long, first.after)?;
    Some(ThreeArguments {
        first: first.word,
        second,
        third,
    })
}

pub(crate) fn four_of(long: bool, line: &[u8]) -> Option<FourArguments<'_>>
    ensures words { option_map four_seen result ≡ four_of long (words_in line.now) }
    ensures short { IfSome result (λ a. IsName a.name.now) }
{
    let first = first_word(line)?;
    if is_long(first.word) {
        return None;
    }
    let ThreeArguments {
        first: object,
        second: offset,
        third: last,
    } = three_of(long, first.after)?;
    Some(FourArguments {
        name: first.word,
        object,
        offset,
        last,
    })
}

/// Whether one of the words is too long.
pub(crate) fn has_long(line: &[u8]) -> bool
    ensures { result ≡ list_any is_long (words_in line.now) }
{
    let mut left = line;
    while let Some(cut) = first_word(left) {
        if is_long(cut.word) {
            return true;
        }
        left = cut.after;
    }
    false
}
