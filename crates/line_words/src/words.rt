//! The words of a line, as dumps, maps, sessions and transcripts print them.

ghost use Rattle.std.specs.Prelude.{◌≡◌, ◌++◌, map, codes, decimal, OnOk};
ghost use Rattle.std.specs.Fmt.{signed_decimal};
ghost use Rattle.session_model.specs.Text.{bytes_word, bytes_words, words, line_of, inner_line};
ghost use Rattle.dump_model.specs.Lines.{name_word};
ghost use Rattle.line_words.specs.Words.{word_text, leading, spaced};

use itoa::Buffer;
use lx_types::{push_escaped, push_hex_address, push_hex_byte};
use std::alloc::AllocError;

/// A word.
#[derive(Clone, Copy)]
pub enum Word<'a> {
    /// As it stands.
    Text(&'a [u8]),
    Number(u32),
    /// How many there are, or which one it is.
    Count(u64),
    Signed(i32),
    /// Eight hexadecimal digits.
    Hex(u32),
    /// An ordinal, after `@`.
    Ordinal(u32),
    /// A process, by its script's number.
    Process(u32),
    /// A name, with its escapes. The empty one is `%`.
    Name(&'a [u8]),
    /// The name of a module, with its escapes. The empty one is no bytes.
    Module(&'a [u8]),
    /// Bytes in one word.
    Bytes(&'a [u8]),
}

/// In decimal digits.
pub fn push_number(out: &mut Vec<u8>, n: u64) -> Result<(), AllocError>
    ensures { OnOk result (out.new.items ≡ out.old.items ++ decimal n) }
{
    out.extend_from_slice(Buffer::new().format(n).as_bytes())
}

fn push_signed(out: &mut Vec<u8>, n: i32) -> Result<(), AllocError>
    ensures { OnOk result (out.new.items ≡ out.old.items ++ signed_decimal n) }
{
    out.extend_from_slice(Buffer::new().format(n).as_bytes())
}

/// In decimal digits, after `@`.
pub fn push_ordinal(out: &mut Vec<u8>, n: u32) -> Result<(), AllocError>
    ensures { OnOk result (out.new.items ≡ out.old.items ++ (codes "@" ++ decimal n)) }
{
    out.push(b'@')?;
    push_number(out, u64::from(n))
}

// The empty name is `%`, which no other name is.
fn push_name(out: &mut Vec<u8>, name: &[u8]) -> Result<(), AllocError>
    ensures { OnOk result (out.new.items ≡ out.old.items ++ name_word name.now) }
{
    if name.is_empty() {
        out.push(b'%')?;
        return Ok(());
    }
    push_escaped(out, name)
}

fn push_process(out: &mut Vec<u8>, pid: u32) -> Result<(), AllocError>
    ensures { OnOk result (out.new.items ≡ out.old.items ++ (codes "P" ++ decimal pid)) }
{
    out.push(b'P')?;
    push_number(out, u64::from(pid))
}

fn push_hex(out: &mut Vec<u8>, bytes: &[u8]) -> Result<(), AllocError>
    ensures { OnOk result (out.new.items ≡ out.old.items ++ bytes_word bytes.now) }
{
    for byte in bytes {
        push_hex_byte(out, u32::from(*byte))?;
    }
    Ok(())
}

fn push_word(out: &mut Vec<u8>, word: Word<'_>) -> Result<(), AllocError>
    ensures { OnOk result (out.new.items ≡ out.old.items ++ word_text word.entry) }
{
    match word {
        Word::Text(text) => out.extend_from_slice(text),
        Word::Number(n) => push_number(out, u64::from(n)),
        Word::Count(n) => push_number(out, n),
        Word::Signed(n) => push_signed(out, n),
        Word::Hex(n) => push_hex_address(out, n),
        Word::Ordinal(n) => push_ordinal(out, n),
        Word::Process(pid) => push_process(out, pid),
        Word::Name(name) => push_name(out, name),
        Word::Module(name) => push_escaped(out, name),
        Word::Bytes(bytes) => push_hex(out, bytes),
    }
}

/// The first words of a line, each with the blank after it.
pub fn push_leading(out: &mut Vec<u8>, words: &[Word<'_>]) -> Result<(), AllocError>
    ensures { OnOk result (out.new.items ≡ out.old.items ++ leading (map word_text words.now)) }
{
    for word in words {
        push_word(out, *word)?;
        out.push(b' ')?;
    }
    Ok(())
}

/// Words, each after a blank.
pub fn push_spaced(out: &mut Vec<u8>, words: &[Word<'_>]) -> Result<(), AllocError>
    ensures { OnOk result (out.new.items ≡ out.old.items ++ spaced (map word_text words.now)) }
{
    for word in words {
        out.push(b' ')?;
        push_word(out, *word)?;
    }
    Ok(())
}

/// Words with one blank between each two.
pub fn push_joined(out: &mut Vec<u8>, all: &[Word<'_>]) -> Result<(), AllocError>
    ensures { OnOk result (out.new.items ≡ out.old.items ++ words (map word_text all.now)) }
{
    match all {
        [first, others @ ..] => {
            push_word(out, *first)?;
            push_spaced(out, others)
        }
        [] => Ok(()),
    }
}

/// Bytes as words, each after a blank.
pub fn push_bytes(out: &mut Vec<u8>, bytes: &[u8]) -> Result<(), AllocError>
    ensures { OnOk result (out.new.items ≡ out.old.items ++ spaced (bytes_words bytes.now)) }
{
    for byte in bytes {
        out.push(b' ')?;
        push_hex_byte(out, u32::from(*byte))?;
    }
    Ok(())
}

/// A line of words, or its last ones.
pub fn push_line(out: &mut Vec<u8>, words: &[Word<'_>]) -> Result<(), AllocError>
    ensures { OnOk result (out.new.items ≡ out.old.items ++ line_of (map word_text words.now)) }
{
    push_joined(out, words)?;
    out.push(b'\n')?;
    Ok(())
}

/// A line of words that is part of the one above.
pub fn push_inner(out: &mut Vec<u8>, words: &[Word<'_>]) -> Result<(), AllocError>
    ensures { OnOk result (out.new.items ≡ out.old.items ++ inner_line (map word_text words.now)) }
{
    out.extend_from_slice(b"  ")?;
    push_line(out, words)
}
