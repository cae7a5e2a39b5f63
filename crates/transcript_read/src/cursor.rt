//! The words of a line, taken one after another.

ghost use Rattle.std.specs.Prelude.{◌≡◌, [], ◌∷◌, codes, decimal, map, Some, is_none, option_map, IfOk};
ghost use Rattle.std.specs.List.{AllByRecursion};
ghost use Rattle.lx_types.specs.Escaped.{hex_byte, hex_address};
ghost use Rattle.session_model.specs.Text.{bytes_words};
ghost use Rattle.session_model.specs.Transcript.{how_text, kind_text, module_text};
ghost use Rattle.check_model.specs.Told.{Has32, Has64, IsByte, IsModuleOf};
ghost use Rattle.line_words.specs.Words.{word_text};
ghost use Rattle.transcript_read.specs.Words.{HasNoBlank, left_of, split, split_left};
ghost use Rattle.transcript_read.specs.Taken.{Takes, TakesAll, TakesSome, Ends};
ghost use Rattle.transcript_read.specs.Rows.{Any, TakesKnown, IsFront, has_word, held, next_word, process_word};
ghost use Rattle.transcript_read.specs.Refusals.{IsPlainRefusal, plain_name};
ghost use Rattle.transcript_lines.specs.Lines.{IsProcess};

use crate::fields::{count_of, how_of, kind_of, number_of, process_of, script_of};
use crate::hex_words::{address_of, byte_in};
use crate::modules::ModuleNames;
use crate::refusals::{is_word, plain_of};
use line_words::Word;
use load_model::{CallKind, How, Refusal};
use lx_types::{Bytes, NoMemory, Numbers, Seq};
use memchr::memchr;
use std::alloc::Global;

/// The first word of a text, and what stands after the blank after it.
#[derive(Clone, Copy)]
struct FirstWord<'a> {
    word: &'a [u8],
    after: Option<&'a [u8]>,
}

fn first_word(text: &[u8]) -> FirstWord<'_>
    ensures words { split text.now ≡ result.word.now ∷ split_left (option_map (λ after. after.now) result.after) }
    ensures inside { HasNoBlank result.word.now }
{
    match memchr(b' ', text) {
        Some(at) => FirstWord {
            word: &text[..at],
            after: Some(&text[at + 1..]),
        },
        None => FirstWord {
            word: text,
            after: None,
        },
    }
}

/// The words of a line that are left.
///
/// A reader stops where a word is not what was looked for. Then it takes no more, and what it hands out is no part of the line:
/// one look at its end tells whether all was there.
#[derive(Clone, Copy)]
pub(crate) struct Words<'a> {
    // None where no word is left
    left: Option<&'a [u8]>,
    stopped: bool,
}

impl<'a> Words<'a> {
    /// The words of a line, which has no end.
    pub(crate) fn of(line: &'a [u8]) -> Words<'a>
        ensures { left_of result ≡ Some (split line.now) }
    {
        Words {
            left: Some(line),
            stopped: false,
        }
    }

    // Takes the next word. Where there is none the reader stops.
    fn word(&mut self) -> &'a [u8]
        ensures front { IsFront (left_of self.old) result.now (left_of self.new) }
        ensures inside { HasNoBlank result.now }
    {
        let Some(text) = self.left else {
            self.stopped = true;
            return &[];
        };
        let first = first_word(text);
        self.left = first.after;
        first.word
    }

    // Goes on only if the word that was taken is what was looked for.
    fn hold(&mut self, told: bool)
        ensures { left_of self.new ≡ held told (left_of self.old) }
    {
        if !told {
            self.stopped = true;
        }
    }

    /// Whether a word is left, and the reader goes on.
    pub(crate) fn are_left(&self) -> bool
        ensures { result ≡ has_word (left_of self.now) }
    {
        if self.stopped {
            return false;
        }
        self.left.is_some()
    }

    /// Whether the reader takes no more.
    pub(crate) fn has_stopped(&self) -> bool
        ensures { result ≡ is_none (left_of self.now) }
    {
        self.stopped
    }

    /// The value, if no word is left.
    pub(crate) fn ending<T: Drop>(self, value: T) -> Option<T>
        ensures { Ends value result (left_of self.entry) }
    {
        if self.stopped {
            return None;
        }
        if self.left.is_some() {
            return None;
        }
        Some(value)
    }

    /// Takes a word that is known.
    pub(crate) fn known(&mut self, text: &[u8])
        ensures { TakesKnown text.now (left_of self.old) (left_of self.new) }
    {
        let word = self.word();
        self.hold(is_word(word, text));
    }

    /// Takes a number of 64 bits in decimal.
    pub(crate) fn count(&mut self) -> u64
        ensures { Takes decimal Has64 result (left_of self.old) (left_of self.new) }
    {
        let told = count_of(self.word());
        self.hold(told.is_some());
        told.unwrap_or(0)
    }

    /// Takes a number of 32 bits in decimal.
    pub(crate) fn number(&mut self) -> u32
        ensures { Takes decimal Has32 result (left_of self.old) (left_of self.new) }
    {
        let told = number_of(self.word());
        self.hold(told.is_some());
        told.unwrap_or(0)
    }

    /// Takes the number of a script in decimal.
    pub(crate) fn script(&mut self) -> u32
        ensures { Takes decimal IsProcess result (left_of self.old) (left_of self.new) }
    {
        let told = script_of(self.word());
        self.hold(told.is_some());
        told.unwrap_or(0)
    }

    /// Takes a process by its script's number.
    pub(crate) fn process(&mut self) -> u32
        ensures { Takes process_word IsProcess result (left_of self.old) (left_of self.new) }
    {
        let told = process_of(self.word());
        self.hold(told.is_some());
        told.unwrap_or(0)
    }

    /// Takes eight hexadecimal digits.
    pub(crate) fn address(&mut self) -> u32
        ensures { Takes hex_address Has32 result (left_of self.old) (left_of self.new) }
    {
        let told = address_of(self.word());
        self.hold(told.is_some());
        told.unwrap_or(0)
    }

    /// Takes two hexadecimal digits.
    pub(crate) fn byte(&mut self) -> u8
        ensures { Takes hex_byte IsByte result (left_of self.old) (left_of self.new) }
    {
        let told = byte_in(self.word());
        self.hold(told.is_some());
        told.unwrap_or(0)
    }

    /// Takes the name of a module.
    pub(crate) fn module(&mut self, names: &ModuleNames<'_>) -> u32
        ensures { Takes (module_text names.now) (IsModuleOf names.now) result (left_of self.old) (left_of self.new) }
    {
        let told = names.module_of(self.word());
        self.hold(told.is_some());
        told.unwrap_or(0)
    }

    /// Takes `start` or `load`.
    pub(crate) fn how(&mut self) -> How
        ensures { Takes how_text Any result (left_of self.old) (left_of self.new) }
    {
        let told = how_of(self.word());
        self.hold(told.is_some());
        told.unwrap_or(How::Start)
    }

    /// Takes the kind of a call.
    pub(crate) fn kind(&mut self) -> CallKind
        ensures { Takes kind_text Any result (left_of self.old) (left_of self.new) }
    {
        let told = kind_of(self.word());
        self.hold(told.is_some());
        told.unwrap_or(CallKind::Init)
    }

    /// Takes the name of a refusal that has no fields.
    pub(crate) fn plain_refusal(&mut self) -> Refusal
        ensures { Takes plain_name IsPlainRefusal result (left_of self.old) (left_of self.new) }
    {
        let told = plain_of(self.word());
        self.hold(told.is_some());
        told.unwrap_or(Refusal::Ended)
    }

    /// Takes all words that are left, each eight hexadecimal digits.
    pub(crate) fn addresses(&mut self, alloc: Global) -> Result<Numbers, NoMemory>
        ensures { IfOk result (λ all. TakesAll (λ xs. map hex_address xs) (AllByRecursion Has32) all (left_of self.old) (left_of self.new)) }
    {
        let mut all = Vec::new(alloc);
        while self.are_left() {
            all.push(self.address())?;
        }
        Ok(Seq::from_vec(all))
    }

    /// Takes all words that are left, each a byte.
    pub(crate) fn bytes(&mut self, alloc: Global) -> Result<Bytes, NoMemory>
        ensures { IfOk result (λ all. TakesAll bytes_words (AllByRecursion IsByte) all (left_of self.old) (left_of self.new)) }
    {
        let mut all = Vec::new(alloc);
        while self.are_left() {
            all.push(self.byte())?;
        }
        Ok(Seq::from_vec(all))
    }

    /// The next word, which is not taken. Where there is none, it is empty.
    pub(crate) fn next(&self) -> &'a [u8]
        ensures { result.now ≡ next_word (left_of self.now) }
    {
        let mut ahead = *self;
        if ahead.are_left() { ahead.word() } else { &[] }
    }

    /// Takes so many words, whatever they are.
    pub(crate) fn some(&mut self, alloc: Global, count: usize) -> Result<Vec<Word<'a>>, NoMemory>
        ensures { IfOk result (λ taken. TakesSome count (map word_text taken.items) (left_of self.old) (left_of self.new)) }
    {
        let mut taken = Vec::new(alloc);
        for _ in 0..count {
            taken.push(Word::Text(self.word()))?;
        }
        Ok(taken)
    }
}
