//! Bytes and numbers, as files of rows spell them.

use std::alloc::{AllocError, Global};

/// The number that a word spells: decimal digits, or `0x` and hexadecimal digits.
pub fn number(word: &str) -> Option<usize> {
    let read = match word.strip_prefix("0x") {
        Some(digits) => usize::from_str_radix(digits, 16),
        None => word.parse::<usize>(),
    };
    read.ok()
}

// The byte that two hexadecimal digits spell.
fn hex_byte(word: &str) -> Option<u8> {
    if word.len() == 2 {
        u8::from_str_radix(word, 16).ok()
    } else {
        None
    }
}

/// The bytes that words of two hexadecimal digits spell.
pub fn hex_bytes(alloc: Global, text: &str) -> Result<Option<Vec<u8>>, AllocError> {
    let mut bytes = Vec::new(alloc);
    for word in text.split_whitespace() {
        match hex_byte(word) {
            Some(byte) => bytes.push(byte)?,
            None => return Ok(None),
        }
    }
    Ok(Some(bytes))
}

/// Puts bytes in the place of those that stand there, and answers whether there are so many.
pub fn overlay(bytes: &mut [u8], place: usize, others: &[u8]) -> bool {
    let Some(after) = bytes.get_mut(place..) else {
        return false;
    };
    let Some(front) = after.get_mut(..others.len()) else {
        return false;
    };
    front.copy_from_slice(others);
    true
}

/// Whether bytes have others at a place.
pub fn has_at(bytes: &[u8], place: usize, others: &[u8]) -> bool {
    match bytes.get(place..) {
        Some(after) => after.starts_with(others),
        None => false,
    }
}

/// Adds a line so often, each with its number from 1 in the place of every `$`.
pub fn add_lines(
    alloc: Global,
    bytes: &mut Vec<u8>,
    count: u32,
    line: &str,
) -> Result<(), AllocError> {
    for number in 1..=count {
        let digits = format!(in alloc; "{number}")?;
        for byte in line.as_bytes() {
            if *byte == b'$' {
                bytes.extend_from_slice(digits.as_bytes())?;
            } else {
                bytes.push(*byte)?;
            }
        }
        bytes.push(b'\n')?;
    }
    Ok(())
}
