//! Numbers, and the bytes of a write.

ghost use Rattle.std.specs.Prelude.{◌≡◌, ◌<◌, ◌≤◌, length, IfOk, IfSome};
ghost use Rattle.std.specs.Bool.{OnTrue};
ghost use Rattle.session_model.specs.Lines.{is_hex, number_in};
ghost use Rattle.session_model.specs.Statements.{length_in, word_in, process_in, hex_in};
ghost use Rattle.session_read.specs.Digits.{radix, digit_of, small_number};

use hex::FromHexError;
use lx_types::{Bytes, MAX_PROCESSES, NoMemory, Seq};
use session_model::MAX_BYTES;
use std::alloc::Global;

/// How many digits there are.
#[derive(Clone, Copy)]
enum Base {
    Ten,
    Sixteen,
}

impl Base {
    fn radix(self) -> u64
        ensures value { result ≡ radix self }
        ensures small { result ≤ 16 }
    {
        match self {
            Base::Ten => 10,
            Base::Sixteen => 16,
        }
    }

    // The value of a digit, where the byte is one.
    fn digit(self, byte: u8) -> Option<u8>
        ensures value { result ≡ digit_of self byte }
        ensures small { IfSome result (λ d. d < 16) }
    {
        match (self, byte) {
            (_, b'0'..=b'9') => Some(byte - b'0'),
            (Base::Sixteen, b'A'..=b'F') => Some(byte - b'A' + 10),
            (Base::Sixteen, b'a'..=b'f') => Some(byte - b'a' + 10),
            _ => None,
        }
    }

    // The number of digits, the highest first, unless it is 2^32 or more.
    fn number(self, digits: &[u8]) -> Option<u32>
        ensures { result ≡ small_number self digits.now }
    {
        if digits.is_empty() {
            return None;
        }
        let mut value = 0u64;
        for byte in digits {
            value = value * self.radix() + u64::from(self.digit(*byte)?);
            if value > u64::from(u32::MAX) {
                return None;
            }
        }
        Some(value as u32)
    }
}

// Whether the word begins with `0x`.
fn is_hex(word: &[u8]) -> bool
    ensures value { result ≡ is_hex word.now }
    ensures long { OnTrue result (2 ≤ length word.now) }
{
    word.len() >= 2 && word[0] == b'0' && word[1] == b'x'
}

/// A number below 2^32.
pub(crate) fn number_in(word: &[u8]) -> Option<u32>
    ensures { result ≡ number_in word.now }
{
    if is_hex(word) {
        Base::Sixteen.number(&word[2..])
    } else {
        Base::Ten.number(word)
    }
}

/// A length: 1 at least, and at most so many.
pub(crate) fn length_in(most: Option<u32>, word: &[u8]) -> Option<u32>
    ensures { result ≡ length_in most word.now }
{
    let length = number_in(word)?;
    if length == 0 {
        return None;
    }
    match most {
        Some(most) if most < length => None,
        _ => Some(length),
    }
}

/// A number of 16 bits.
pub(crate) fn word_in(word: &[u8]) -> Option<u16>
    ensures { result ≡ word_in word.now }
{
    let number = number_in(word)?;
    u16::try_from(number).ok()
}

/// The number of a process.
pub(crate) fn process_in(word: &[u8]) -> Option<u32>
    ensures { result ≡ process_in word.now }
{
    let number = number_in(word)?;
    if number < 1 || number > MAX_PROCESSES {
        return None;
    }
    Some(number)
}

/// The bytes of a write, if the word has them. It takes no memory for a word of more.
pub(crate) fn hex_in(alloc: Global, word: &[u8]) -> Result<Option<Bytes>, NoMemory>
    ensures { IfOk result (λ bytes. bytes ≡ hex_in word.now) }
{
    if word.is_empty() {
        return Ok(None);
    }
    if word.len() > 2 * MAX_BYTES as usize {
        return Ok(None);
    }
    match hex::decode(alloc, word) {
        Ok(bytes) => Ok(Some(Seq::from_vec(bytes))),
        Err(error) => match error {
            FromHexError::OutOfMemory => Err(NoMemory),
            _ => Ok(None),
        },
    }
}
