//! A reader of the words of a dump.

ghost use Rattle.std.specs.Prelude.{◌≡◌, ◌≤◌, ◌<◌, ◌++◌, ◌∷◌, [], length, decimal, IsTrue, IfOk, Bool, map};
ghost use Rattle.std.specs.Fmt.{signed_decimal};
ghost use Rattle.lx_types.specs.Escaped.{hex_address};
ghost use Rattle.dump_model.specs.Bounds.{Has32, HasSigned32, IsListedName};
ghost use Rattle.dump_model.specs.Lines.{name_word};
ghost use Rattle.dump_model.specs.Words.{IsAfter};
ghost use Rattle.dump_read.specs.Taken.{Reads, Takes, shut};
ghost use Rattle.dump_read.specs.Settled.{IsNext, IsPlace, TakesOne, ended_by, is_piece, are_pieces, front_word, goes, settled, taken, taken_one};

use crate::bytes::{any_begins_with, begins_with, place_of, word_len};
use crate::names::name_of;
use crate::words::{begins_flags, begins_number, begins_signed, flags_of, number_of, signed_of};
use itoa::Buffer;
use lx_types::{Name, NoMemory};
use std::alloc::Global;
use std::marker::Model;

/// What stands after a word.
pub(crate) const BLANK: u8 = b' ';

pub(crate) const END: u8 = b'\n';

/// The bytes that are left of a dump.
///
/// A reader stops where no dump goes on like this. Then it takes no more, and what it hands out is no part of a dump: one
/// look at its end tells whether all was there.
#[derive(Drop)]
pub(crate) struct Reader<'a> {
    left: &'a [u8],
    /// All that is left begins something that was looked for here.
    begun: bool,
    stopped: bool,
}

impl<'a> Model for Reader<'a> {
    ghost use Rattle.dump_read.specs.Taken.{State};

    ghost Value = { State };

    ghost view = { λ r. record { left = r.left.now; begun = r.begun; stopped = r.stopped } };
}

impl<'a> Reader<'a> {
    pub(crate) fn of(bytes: &'a [u8]) -> Reader<'a>
        ensures { result ≡ record { left = bytes.now; begun = Bool.false; stopped = Bool.false } }
    {
        Reader {
            left: bytes,
            begun: false,
            stopped: false,
        }
    }

    /// How many bytes are left.
    pub(crate) fn left(&self) -> usize
        ensures { result ≡ length self.now.left }
    {
        self.left.len()
    }

    /// Whether something that was looked for begins with all that is left.
    pub(crate) fn has_begun(&self) -> bool
        ensures { result ≡ self.now.begun }
    {
        self.begun
    }

    pub(crate) fn has_stopped(&self) -> bool
        ensures { result ≡ self.now.stopped }
    {
        self.stopped
    }

    // The word that stands next.
    fn front(&self) -> &'a [u8]
        ensures front { result.now ≡ front_word self.now.left }
        ensures within { length result.now ≤ length self.now.left }
    {
        &self.left[..word_len(self.left)]
    }

    // Takes the word that stands next and the byte after it, if the word is what is looked for. If the bytes end within the
    // word, what is looked for may begin with it.
    fn settle(&mut self, word: &[u8], after: u8, is_told: bool, begins: bool)
        requires { length word.now ≤ length self.old.left }
        ensures { self.new ≡ settled word.now after is_told begins self.old }
    {
        if self.stopped {
            return;
        }
        let len = word.len();
        if len == self.left.len() {
            self.begun = self.begun || begins;
            self.stopped = true;
        } else if is_told && self.left[len] == after {
            self.left = &self.left[len + 1..];
            self.begun = false;
        } else {
            self.stopped = true;
        }
    }

    /// Whether this text stands next. It is not taken.
    pub(crate) fn is_next(&mut self, piece: &[u8]) -> bool
        ensures { IsNext piece.now result self.old self.new }
    {
        if self.stopped {
            return false;
        }
        if begins_with(self.left, piece) {
            return true;
        }
        self.begun = self.begun || begins_with(piece, self.left);
        false
    }

    fn take(&mut self, piece: &[u8])
        ensures { self.new ≡ taken piece.now self.old }
    {
        if self.stopped {
            return;
        }
        if begins_with(self.left, piece) {
            self.left = &self.left[piece.len()..];
            self.begun = false;
        } else {
            self.begun = self.begun || begins_with(piece, self.left);
            self.stopped = true;
        }
    }

    /// Takes a word with what stands after it.
    pub(crate) fn word(&mut self, piece: &[u8])
        requires { IsTrue (is_piece piece.now) }
        ensures { Takes piece.now self.old self.new }
    {
        self.take(piece);
    }

    fn take_one(&mut self, pieces: &[&[u8]], place: Option<(usize, usize)>)
        requires { IsPlace (map (λ p. p.now) pieces.now) self.old.left place }
        ensures { self.new ≡ taken_one (map (λ p. p.now) pieces.now) place self.old }
    {
        if self.stopped {
            return;
        }
        match place {
            Some((_, len)) => {
                self.left = &self.left[len..];
                self.begun = false;
            }
            None => {
                self.begun = self.begun || any_begins_with(pieces, self.left);
                self.stopped = true;
            }
        }
    }

    /// Takes one of some words with what stands after it, and tells which.
    pub(crate) fn one_of(&mut self, pieces: &[&[u8]]) -> usize
        requires { IsTrue (are_pieces (map (λ p. p.now) pieces.now)) }
        ensures one { TakesOne (map (λ p. p.now) pieces.now) result self.old self.new }
        ensures within { result < length pieces.now }
    {
        let place = place_of(pieces, self.left);
        self.take_one(pieces, place);
        match place {
            Some((k, _)) => k,
            None => 0,
        }
    }

    /// Takes a number that is known.
    pub(crate) fn count(&mut self, n: u64, after: u8)
        requires { IsAfter after }
        ensures { Takes (decimal n ++ after ∷ []) self.old self.new }
    {
        let word = self.front();
        let mut buffer = Buffer::new();
        let digits = buffer.format(n).as_bytes();
        self.settle(word, after, word == digits, begins_with(digits, word));
    }

    /// Takes a number in decimal.
    pub(crate) fn number(&mut self, after: u8) -> u32
        requires { IsAfter after }
        ensures { Reads (ended_by after decimal) Has32 shut result self.old self.new }
    {
        let word = self.front();
        let told = number_of(word);
        self.settle(word, after, told.is_some(), begins_number(word));
        told.unwrap_or(0)
    }

    /// Takes a number in decimal that may have a minus sign.
    pub(crate) fn signed(&mut self, after: u8) -> i32
        requires { IsAfter after }
        ensures { Reads (ended_by after signed_decimal) HasSigned32 shut result self.old self.new }
    {
        let word = self.front();
        let told = signed_of(word);
        self.settle(word, after, told.is_some(), begins_signed(word));
        told.unwrap_or(0)
    }

    /// Takes eight hexadecimal digits.
    pub(crate) fn flags(&mut self, after: u8) -> u32
        requires { IsAfter after }
        ensures { Reads (ended_by after hex_address) Has32 shut result self.old self.new }
    {
        let word = self.front();
        let told = flags_of(word);
        self.settle(word, after, told.is_some(), begins_flags(word));
        told.unwrap_or(0)
    }

    /// Takes a name.
    pub(crate) fn name(&mut self, alloc: Global, after: u8) -> Result<Name, NoMemory>
        requires { IsAfter after }
        ensures { IfOk result (λ name. Reads (ended_by after name_word) IsListedName shut name self.old self.new) }
    {
        let word = self.front();
        let told = name_of(alloc, word)?;
        self.settle(word, after, told.is_told, told.begins);
        Ok(told.name)
    }
}
