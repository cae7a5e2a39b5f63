//! Names, without their escapes.

ghost use Rattle.std.specs.Prelude.{◌≡◌, ◌↔◌, ◌∷◌, IfOk, IsTrue};
ghost use Rattle.std.specs.Bool.{then_some};
ghost use Rattle.lx_types.specs.Escaped.{is_plain};
ghost use Rattle.dump_model.specs.Bounds.{IsListedName};
ghost use Rattle.dump_model.specs.Lines.{name_word};
ghost use Rattle.dump_model.specs.Words.{Begins, Tells};
ghost use Rattle.dump_read.specs.Names.{IsPart};
ghost use Rattle.dump_read.specs.Words.{EndsOrNot, IsFirstDigit, IsFront, IsPairFront, IsToldName};

use crate::words::{byte_of, hex_value};
use lx_types::{Name, NoMemory};
use std::alloc::Global;

/// The most bytes of a name.
const MOST: usize = 255;

fn is_plain(byte: u8) -> bool
    ensures { result ≡ is_plain byte }
{
    0x21 <= byte && byte <= 0x7E && byte != b'%'
}

/// What stands in front of a word.
#[derive(Clone, Copy)]
pub(crate) enum Front {
    /// A byte of the name, in so many bytes of the word.
    Byte(u8, usize),
    /// The word ends within an escape that stands for some byte.
    Ends,
    /// No name has it.
    Wrong,
}

// Some byte is written as an escape with this first digit.
fn is_first_digit(byte: u8) -> bool
    ensures { IsTrue result ↔ IsFirstDigit byte }
{
    match hex_value(byte) {
        Some(high) => high <= 2 || high >= 7,
        None => false,
    }
}

// An escape with two digits.
fn pair(high: u8, low: u8) -> Front
    ensures { IsPairFront result high low }
{
    let Some(byte) = byte_of(high, low) else {
        return Front::Wrong;
    };
    let byte = byte as u8;
    if is_plain(byte) {
        Front::Wrong
    } else {
        Front::Byte(byte, 3)
    }
}

// What stands after the sign of an escape.
fn escape(after: &[u8]) -> Front
    ensures { IsFront result (0x25 ∷ after.now) }
{
    let Some((high, after)) = after.split_first() else {
        return Front::Ends;
    };
    match after.split_first() {
        Some((low, _)) => pair(*high, *low),
        None => {
            if is_first_digit(*high) {
                Front::Ends
            } else {
                Front::Wrong
            }
        }
    }
}

fn front_of(word: &[u8]) -> Front
    ensures { IsFront result word.now }
{
    let Some((first, after)) = word.split_first() else {
        return Front::Ends;
    };
    if *first == b'%' {
        return escape(after);
    }
    if is_plain(*first) {
        Front::Byte(*first, 1)
    } else {
        Front::Wrong
    }
}

// The bytes of a name that a word has, and what is left of the word.
#[derive(Drop)]
struct NamePart<'a> {
    bytes: Vec<u8>,
    left: &'a [u8],
}

// The bytes of a name that a word has, as many as a name has at most, up to what is no byte of one.
fn part_of<'a>(alloc: Global, word: &'a [u8]) -> Result<NamePart<'a>, NoMemory>
    ensures { IfOk result (λ part. IsPart word.now part.bytes.items part.left.now) }
{
    let mut bytes = Vec::new(alloc);
    let mut left = word;
    while bytes.len() < MOST {
        let Front::Byte(byte, len) = front_of(left) else {
            return Ok(NamePart { bytes, left });
        };
        bytes.push(byte)?;
        left = left.split_at(len).1;
    }
    Ok(NamePart { bytes, left })
}

// Whether a word is the text of a name, whose bytes these are.
fn is_name(word: &[u8], part: &NamePart<'_>) -> bool
    requires { IsPart word.now part.now.bytes.items part.now.left.now }
    ensures { Tells name_word IsListedName (then_some result part.now.bytes.items) word.now }
{
    if word == b"%".as_slice() {
        return true;
    }
    if part.left.is_empty() {
        return !part.bytes.is_empty();
    }
    false
}

fn ends_within(left: &[u8]) -> bool
    ensures { EndsOrNot result left.now }
{
    matches!(front_of(left), Front::Ends)
}

// Whether the text of some name begins with a word that has these bytes of it.
fn begins_name(word: &[u8], part: &NamePart<'_>) -> bool
    requires { IsPart word.now part.now.bytes.items part.now.left.now }
    ensures { IsTrue result ↔ Begins name_word IsListedName word.now }
{
    if part.left.is_empty() {
        return true;
    }
    if part.bytes.len() < MOST {
        return ends_within(part.left);
    }
    false
}

/// What a word tells of a name.
#[derive(Drop)]
pub(crate) struct ToldName {
    /// The name, if the word is one's text.
    pub name: Name,
    pub is_told: bool,
    /// The text of some name begins with the word.
    pub begins: bool,
}

/// The name that a word tells, if it does.
pub(crate) fn name_of(alloc: Global, word: &[u8]) -> Result<ToldName, NoMemory>
    ensures { IfOk result (λ told. IsToldName told word.now) }
{
    let part = part_of(alloc, word)?;
    let is_told = is_name(word, &part);
    let begins = begins_name(word, &part);
    let name = Name::of_short(alloc, part.bytes.as_slice())?;
    Ok(ToldName {
        name,
        is_told,
        begins,
    })
}
