//! Tokens.

ghost use Rattle.std.specs.Prelude.{◌≡◌};
ghost use Rattle.std.specs.Option.{option_copied};
ghost use Rattle.def_model.specs.Lexemes.{number_of_lexeme, name_of_lexeme, text_of_lexeme, keyword_of_lexeme, is_equals, is_at, is_dot, is_stray, is_ending};
ghost use Rattle.def_tokens.specs.Seen.{lexeme_of};

use def_model::Keyword;

/// A token. Its bytes lie in the file.
#[derive(Clone, Copy)]
pub enum Token<'a> {
    /// A number; there is no value where it is 2^32 or more.
    Number(Option<u32>),
    Equals,
    At,
    Dot,
    /// The bytes between two quotes, also none.
    Text(&'a [u8]),
    /// An identifier that is no keyword.
    Word(&'a [u8]),
    Keyword(Keyword),
    /// Bytes that are no token.
    Stray,
    /// The end of the file.
    End,
}

impl<'a> Token<'a> {
    /// The value of a number, if the token is one.
    pub fn number(self) -> Option<Option<u32>>
        ensures { result ≡ number_of_lexeme (lexeme_of self.entry) }
    {
        match self {
            Token::Number(value) => Some(value),
            _ => None,
        }
    }

    /// The bytes of a text or an identifier, which may be a name.
    pub fn name(self) -> Option<&'a [u8]>
        ensures { option_copied result ≡ name_of_lexeme (lexeme_of self.entry) }
    {
        match self {
            Token::Text(bytes) | Token::Word(bytes) => Some(bytes),
            _ => None,
        }
    }

    /// The bytes of a text.
    pub fn text(self) -> Option<&'a [u8]>
        ensures { option_copied result ≡ text_of_lexeme (lexeme_of self.entry) }
    {
        match self {
            Token::Text(bytes) => Some(bytes),
            _ => None,
        }
    }

    pub fn keyword(self) -> Option<Keyword>
        ensures { result ≡ keyword_of_lexeme (lexeme_of self.entry) }
    {
        match self {
            Token::Keyword(keyword) => Some(keyword),
            _ => None,
        }
    }

    pub fn is_equals(self) -> bool
        ensures { result ≡ is_equals (lexeme_of self.entry) }
    {
        matches!(self, Token::Equals)
    }

    pub fn is_at(self) -> bool
        ensures { result ≡ is_at (lexeme_of self.entry) }
    {
        matches!(self, Token::At)
    }

    pub fn is_dot(self) -> bool
        ensures { result ≡ is_dot (lexeme_of self.entry) }
    {
        matches!(self, Token::Dot)
    }

    pub fn is_stray(self) -> bool
        ensures { result ≡ is_stray (lexeme_of self.entry) }
    {
        matches!(self, Token::Stray)
    }

    pub fn is_end(self) -> bool
        ensures { result ≡ is_ending (lexeme_of self.entry) }
    {
        matches!(self, Token::End)
    }
}

/// A token and the line that it begins in. Lines count from 1, and none is counted past 2^32 - 1.
#[derive(Clone, Copy)]
pub struct TokenAt<'a> {
    pub line: u32,
    pub token: Token<'a>,
}
