//! Tokens, written.

ghost use Rattle.std.specs.Prelude.{◌≡◌, ◌∷◌, ◌++◌, [], map, IfOk, decimal};
ghost use Rattle.def_tokens.specs.Seen.{lexeme_of};
ghost use Rattle.def_write.specs.Spelling.{attribute_word, word_of, spelling, gap, text_after, line_text};

use def_model::{Keyword, Pair};
use def_tokens::Token;
use itoa::Buffer;
use std::alloc::AllocError;

// A word of a pair of attributes.
fn attribute_word(pair: Pair, on: bool) -> &'static [u8]
    ensures { result.now ≡ attribute_word pair on }
{
    match (pair, on) {
        (Pair::Write, true) => b"READWRITE",
        (Pair::Write, false) => b"READONLY",
        (Pair::Read, true) => b"EXECUTEREAD",
        (Pair::Read, false) => b"EXECUTEONLY",
        (Pair::Shared, true) => b"SHARED",
        (Pair::Shared, false) => b"NONSHARED",
        (Pair::Preload, true) => b"PRELOAD",
        (Pair::Preload, false) => b"LOADONCALL",
        (Pair::Conforming, true) => b"CONFORMING",
        (Pair::Conforming, false) => b"NONCONFORMING",
        (Pair::Iopl, true) => b"IOPL",
        (Pair::Iopl, false) => b"NOIOPL",
    }
}

// The word for a keyword; the first, where several words are the same keyword.
fn word_of(keyword: Keyword) -> &'static [u8]
    ensures { result.now ≡ word_of keyword }
{
    match keyword {
        Keyword::Name => b"NAME",
        Keyword::Library => b"LIBRARY",
        Keyword::Description => b"DESCRIPTION",
        Keyword::Code => b"CODE",
        Keyword::Data => b"DATA",
        Keyword::Segments => b"SEGMENTS",
        Keyword::Exports => b"EXPORTS",
        Keyword::Imports => b"IMPORTS",
        Keyword::StackSize => b"STACKSIZE",
        Keyword::HeapSize => b"HEAPSIZE",
        Keyword::Base => b"BASE",
        Keyword::ProtMode => b"PROTMODE",
        Keyword::ExeType => b"EXETYPE",
        Keyword::Unread => b"STUB",
        Keyword::Window => b"WINDOWAPI",
        Keyword::Init { each: true } => b"INITINSTANCE",
        Keyword::Init { each: false } => b"INITGLOBAL",
        Keyword::Term { each: true } => b"TERMINSTANCE",
        Keyword::Term { each: false } => b"TERMGLOBAL",
        Keyword::Class => b"CLASS",
        Keyword::ResidentName => b"RESIDENTNAME",
        Keyword::NoData => b"NODATA",
        Keyword::Attribute(pair, on) => attribute_word(pair, on),
        Keyword::NoEffect => b"NONE",
    }
}

fn put_number(out: &mut Vec<u8>, value: u32) -> Result<(), AllocError>
    ensures { IfOk result (λ _. out.new.items ≡ out.old.items ++ decimal value) }
{
    out.extend_from_slice(Buffer::new().format(value).as_bytes())
}

fn put_text(out: &mut Vec<u8>, bytes: &[u8]) -> Result<(), AllocError>
    ensures { IfOk result (λ _. out.new.items ≡ out.old.items ++ (39 ∷ bytes.now ++ 39 ∷ [])) }
{
    out.extend_from_slice(b"'")?;
    out.extend_from_slice(bytes)?;
    out.extend_from_slice(b"'")
}

// One token. An identifier that is no keyword is written as a text, and has no spelling here.
fn put(out: &mut Vec<u8>, token: Token<'_>) -> Result<(), AllocError>
    ensures { IfOk result (λ _. out.new.items ≡ out.old.items ++ spelling (lexeme_of token.entry)) }
{
    match token {
        Token::Number(Some(value)) => put_number(out, value),
        Token::Equals => out.extend_from_slice(b"="),
        Token::At => out.extend_from_slice(b"@"),
        Token::Dot => out.extend_from_slice(b"."),
        Token::Text(bytes) => put_text(out, bytes),
        Token::Keyword(keyword) => out.extend_from_slice(word_of(keyword)),
        _ => Ok(()),
    }
}

fn put_gap(out: &mut Vec<u8>, before: Token<'_>, next: Token<'_>) -> Result<(), AllocError>
    ensures { IfOk result (λ _. out.new.items ≡ out.old.items ++ gap (lexeme_of before.entry) (lexeme_of next.entry)) }
{
    if before.is_at() || before.is_dot() || next.is_dot() {
        Ok(())
    } else {
        out.extend_from_slice(b" ")
    }
}

// Tokens after another of their line.
fn put_after(out: &mut Vec<u8>, first: Token<'_>, tokens: &[Token<'_>]) -> Result<(), AllocError>
    ensures { IfOk result (λ _. out.new.items
        ≡ out.old.items ++ text_after (lexeme_of first.entry) (map lexeme_of tokens.now)) }
{
    let mut before = first;
    for token in tokens {
        put_gap(out, before, *token)?;
        put(out, *token)?;
        before = *token;
    }
    Ok(())
}

/// Adds a line of these tokens: numbers in decimal, texts in single quotes, keywords in capital
/// letters. They are read again where each is a sign, a keyword, a number that has a value or a text
/// that fits between single quotes on one line; other tokens are left out.
pub fn write_line(out: &mut Vec<u8>, tokens: &[Token<'_>]) -> Result<(), AllocError>
    ensures { IfOk result (λ _. out.new.items ≡ out.old.items ++ line_text (map lexeme_of tokens.now)) }
{
    if let [first, others @ ..] = tokens {
        put(out, *first)?;
        put_after(out, *first, others)?;
    }
    out.extend_from_slice(b"\n")
}
