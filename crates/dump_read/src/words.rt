//! The words of a line: numbers, flags and the bytes of names.

ghost use Rattle.std.specs.Prelude.{◌≡◌, ◌↔◌, decimal, IsTrue};
ghost use Rattle.std.specs.List.{AllByRecursion};
ghost use Rattle.std.specs.Fmt.{signed_decimal};
ghost use Rattle.lx_types.specs.Escaped.{hex_address};
ghost use Rattle.dump_model.specs.Bounds.{Has32, HasSigned32};
ghost use Rattle.dump_model.specs.Words.{Tells, Begins, IsDigit, IsHex, IsPairOf};

use itoa::Buffer;
use std::str;

// Whether it is the text of the number, and not another one that has its value.
fn is_number_text(word: &[u8], n: u32) -> bool
    ensures { IsTrue result ↔ (word.now ≡ decimal n) }
{
    Buffer::new().format(n).as_bytes() == word
}

/// The number that a word is in decimal.
pub(crate) fn number_of(word: &[u8]) -> Option<u32>
    ensures { Tells decimal Has32 result word.now }
{
    let Ok(text) = str::from_utf8(word) else {
        return None;
    };
    let Ok(n) = text.parse::<u32>() else {
        return None;
    };
    if is_number_text(word, n) {
        Some(n)
    } else {
        None
    }
}

/// Whether some number begins with these digits.
pub(crate) fn begins_number(word: &[u8]) -> bool
    ensures { IsTrue result ↔ Begins decimal Has32 word.now }
{
    if word.is_empty() {
        return true;
    }
    number_of(word).is_some()
}

fn is_signed_text(word: &[u8], n: i32) -> bool
    ensures { IsTrue result ↔ (word.now ≡ signed_decimal n) }
{
    Buffer::new().format(n).as_bytes() == word
}

/// The number that a word is in decimal, maybe after a minus sign.
pub(crate) fn signed_of(word: &[u8]) -> Option<i32>
    ensures { Tells signed_decimal HasSigned32 result word.now }
{
    let Ok(text) = str::from_utf8(word) else {
        return None;
    };
    let Ok(n) = text.parse::<i32>() else {
        return None;
    };
    if is_signed_text(word, n) {
        Some(n)
    } else {
        None
    }
}

/// Whether some number with a sign begins with these bytes.
pub(crate) fn begins_signed(word: &[u8]) -> bool
    ensures { IsTrue result ↔ Begins signed_decimal HasSigned32 word.now }
{
    if word.is_empty() {
        return true;
    }
    if word == b"-".as_slice() {
        return true;
    }
    signed_of(word).is_some()
}

/// The value of a hexadecimal digit in upper case.
pub(crate) fn hex_value(byte: u8) -> Option<u8>
    ensures { IsDigit result byte }
{
    match byte {
        b'0'..=b'9' => Some(byte - b'0'),
        b'A'..=b'F' => Some(byte - b'A' + 10),
        _ => None,
    }
}

/// The byte of two digits.
pub(crate) fn byte_of(high: u8, low: u8) -> Option<u32>
    ensures { IsPairOf result high low }
{
    let (Some(high), Some(low)) = (hex_value(high), hex_value(low)) else {
        return None;
    };
    Some(u32::from(high) * 16 + u32::from(low))
}

/// The number that a word is in eight hexadecimal digits.
pub(crate) fn flags_of(word: &[u8]) -> Option<u32>
    ensures { Tells hex_address Has32 result word.now }
{
    let [a, b, c, d, e, f, g, h] = word else {
        return None;
    };
    let first = byte_of(*a, *b)?;
    let second = byte_of(*c, *d)?;
    let third = byte_of(*e, *f)?;
    let fourth = byte_of(*g, *h)?;
    Some(first * 0x100_0000 + second * 0x1_0000 + third * 0x100 + fourth)
}

fn are_digits(word: &[u8]) -> bool
    ensures { IsTrue result ↔ AllByRecursion IsHex word.now }
{
    for byte in word {
        if hex_value(*byte).is_none() {
            return false;
        }
    }
    true
}

/// Whether some eight digits begin with these.
pub(crate) fn begins_flags(word: &[u8]) -> bool
    ensures { IsTrue result ↔ Begins hex_address Has32 word.now }
{
    if word.len() > 8 {
        return false;
    }
    are_digits(word)
}
