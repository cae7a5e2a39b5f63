//! Tokens one after another.

ghost use Rattle.std.specs.Prelude.{◌≡◌, ◌+◌, ◌<◌, ◌≤◌, ◌∷◌, true, false, Some, None, length, drop, take};
ghost use Rattle.std.specs.List.{prefix_len};
ghost use Rattle.def_model.specs.Lexemes.{is_ending};
ghost use Rattle.def_tokens.specs.Seen.{lexeme_of};
ghost use Rattle.def_model.specs.Tokens.{front, front_of, text_front, word_front, word_lexeme, is_word_byte, blank_len, comment_len, text_len, line_after, tokens_from, tokens_after, tokens_of, before};
ghost use Rattle.def_tokens.specs.Seen.{placed_of};

use crate::keyword::keyword_of;
use crate::number::number_of;
use crate::{Token, TokenAt};
use std::marker::Model;

/// A place in a file from which tokens are read.
#[derive(Drop)]
pub struct Lexer<'a> {
    line: u32,
    left: &'a [u8],
}

impl<'a> Model for Lexer<'a> {
    ghost use Rattle.def_model.specs.Tokens.{Place};

    ghost Value = { Place };

    ghost view = { λ l. record { line = l.line; left = l.left.now } };
}

// A token and how many bytes it has.
struct Sized<'a> {
    token: Token<'a>,
    len: usize,
}

/// Each byte of identifiers, keywords and numbers at its own place, and a dot at every other place.
static WORD_BYTES: [u8; 256] = *b"\
    ................................\
    ....$...........0123456789.....?\
    .ABCDEFGHIJKLMNOPQRSTUVWXYZ...._\
    .abcdefghijklmnopqrstuvwxyz.....\
    ................................\
    ................................\
    ................................\
    ................................";

fn is_word_byte(byte: u8) -> bool
    ensures { result ≡ is_word_byte byte }
{
    WORD_BYTES[usize::from(byte)] != b'.'
}

// How many bytes a run of letters, digits and signs has.
fn word_len(bytes: &[u8]) -> usize
    ensures value { result ≡ prefix_len (λ b. is_word_byte b) bytes.now }
    ensures within { result ≤ length bytes.now }
{
    bytes.iter().take_while(|b| is_word_byte(**b)).count()
}

// How many bytes stand before the quote or the line's end.
fn text_len(quote: u8, bytes: &[u8]) -> usize
    ensures value { result ≡ text_len quote bytes.now }
    ensures within { result ≤ length bytes.now }
{
    bytes
        .iter()
        .take_while(|b| !(**b == quote) && !(**b == b'\n'))
        .count()
}

// How many bytes stand before the line's end.
fn comment_len(bytes: &[u8]) -> usize
    ensures value { result ≡ comment_len bytes.now }
    ensures within { result ≤ length bytes.now }
{
    text_len(b'\n', bytes)
}

// The token that a run of letters, digits and signs is.
fn word_token(run: &[u8]) -> Token<'_>
    requires { 0 < length run.now }
    ensures found { lexeme_of result ≡ word_lexeme run.now }
    ensures not_end { is_ending (lexeme_of result) ≡ false }
{
    if run[0].is_ascii_digit() {
        match number_of(run) {
            Some(value) => Token::Number(value),
            None => Token::Stray,
        }
    } else {
        match keyword_of(run) {
            Some(keyword) => Token::Keyword(keyword),
            None => Token::Word(run),
        }
    }
}

fn word<'a>(bytes: &'a [u8]) -> Sized<'a>
    requires { 0 < prefix_len (λ b. is_word_byte b) bytes.now }
    ensures not_end { is_ending (lexeme_of result.token) ≡ false }
    ensures found { word_front bytes.now ≡ front result.len (lexeme_of result.token) }
{
    let len = word_len(bytes);
    Sized {
        token: word_token(&bytes[..len]),
        len,
    }
}

// The text after its first quote, with both quotes.
fn text<'a>(quote: u8, bytes: &'a [u8]) -> Sized<'a>
    ensures not_end { is_ending (lexeme_of result.token) ≡ false }
    ensures found { text_front quote bytes.now ≡ front result.len (lexeme_of result.token) }
{
    let len = text_len(quote, bytes);
    if len < bytes.len() && bytes[len] == quote {
        Sized {
            token: Token::Text(&bytes[..len]),
            len: len + 2,
        }
    } else {
        Sized {
            token: Token::Stray,
            len: 1,
        }
    }
}

// The line after a byte. There is none past the last number.
fn line_after(byte: u8, line: u32) -> u32
    ensures { result ≡ line_after byte line }
{
    if byte == b'\n' {
        line.saturating_add(1)
    } else {
        line
    }
}

// How many bytes at the front separate tokens.
fn blank_len(bytes: &[u8]) -> usize
    ensures value { result ≡ blank_len bytes.now }
    ensures within { result ≤ length bytes.now }
{
    match bytes {
        [b' ' | b'\t' | b'\n', ..] => 1,
        [b'\r', b'\n', ..] => 1,
        [b';', comment @ ..] => 1 + comment_len(comment),
        _ => 0,
    }
}

// A token of one byte.
fn sign(token: Token<'_>) -> Sized<'_>
    ensures token { result.token ≡ token.entry }
    ensures len { result.len ≡ 1 }
{
    Sized { token, len: 1 }
}

// The token at the front, where no blank stands.
fn token<'a>(first: u8, after: &'a [u8], bytes: &'a [u8]) -> Sized<'a>
    requires { bytes.now ≡ first ∷ after.now }
    ensures found { front_of first after.now ≡ front result.len (lexeme_of result.token) }
    ensures not_end { is_ending (lexeme_of result.token) ≡ false }
    ensures some { 0 < result.len }
    ensures within { result.len ≤ length bytes.now }
{
    match first {
        b'\'' | b'"' => text(first, after),
        b'=' => sign(Token::Equals),
        b'@' => sign(Token::At),
        b'.' => sign(Token::Dot),
        _ if is_word_byte(first) => word(bytes),
        _ => sign(Token::Stray),
    }
}

impl<'a> Lexer<'a> {
    /// The place before the first token of a file.
    pub fn of(bytes: &'a [u8]) -> Lexer<'a>
        ensures { tokens_from result ≡ tokens_of bytes.now }
    {
        Lexer {
            line: 1,
            left: bytes,
        }
    }

    // Moves past blanks and comments.
    fn pass_blanks(&mut self)
        ensures same { tokens_from self.new ≡ tokens_from self.old }
        ensures shorter { length self.new.left ≤ length self.old.left }
        ensures none { blank_len self.new.left ≡ 0 }
    {
        loop {
            let len = blank_len(self.left);
            if len == 0 {
                return;
            }
            self.line = line_after(self.left[0], self.line);
            self.left = &self.left[len..];
        }
    }

    /// The next token, after which the place is then. At the end of the file it is `End`, and the
    /// place stays there.
    pub fn next(&mut self) -> TokenAt<'a>
        ensures token { tokens_from self.old ≡ before (placed_of result) (tokens_from self.new) }
        ensures shorter { is_ending (placed_of result).lexeme ≡ false → length self.new.left < length self.old.left }
    {
        self.pass_blanks();
        let line = self.line;
        let [first, after @ ..] = self.left else {
            return TokenAt {
                line,
                token: Token::End,
            };
        };
        let Sized { token, len } = token(*first, after, self.left);
        self.left = &self.left[len..];
        TokenAt { line, token }
    }
}
