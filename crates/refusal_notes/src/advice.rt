//! What to do with a line of a definition file that has a fault ("Module Definition Files" of the Toolkit's tools reference).

use def_model::{DefKind, DefRefusal, Keyword};
use def_tokens::{Lexer, Token};
use std::fmt::{self, Display, Formatter, Write};

/// A word of a line, of letters, digits and signs, and what stands after it.
#[derive(Clone, Copy)]
struct Word<'a> {
    text: &'a str,
    after: &'a str,
}

fn is_sign(letter: char) -> bool {
    letter.is_ascii_alphanumeric() || matches!(letter, '_' | '$' | '?')
}

// The first word of a text.
fn first_word(text: &str) -> Option<Word<'_>> {
    let from = text.get(text.find(is_sign)?..)?;
    let after = from.trim_start_matches(is_sign);
    let text = from.strip_suffix(after)?;
    Some(Word { text, after })
}

/// A word that is looked for on a line with a fault.
#[derive(Clone, Copy)]
enum Sought {
    /// A word of the format where only a name can stand.
    ReservedName,
    /// A number as assemblers have them, as 8000H.
    AssemblerNumber,
    /// CLASS, or DESCRIPTION, where no text stands after it.
    Textless(Keyword),
}

impl Sought {
    fn is_met_by(self, word: &Word<'_>) -> bool {
        match self {
            Sought::ReservedName => is_reserved(word),
            Sought::AssemblerNumber => is_assembler_number(word),
            Sought::Textless(keyword) => {
                keyword_of(word) == Some(keyword) && !stands_before(word, &['\'', '"'])
            }
        }
    }
}

// The first word of a text that is one that is looked for.
fn find_word(text: &str, sought: Sought) -> Option<Word<'_>> {
    let mut left = text;
    for _ in 0..text.len() {
        let word = first_word(left)?;
        if sought.is_met_by(&word) {
            return Some(word);
        }
        left = word.after;
    }
    None
}

fn keyword_of(word: &Word<'_>) -> Option<Keyword> {
    Lexer::of(word.text.as_bytes()).next().token.keyword()
}

fn stands_before(word: &Word<'_>, signs: &[char]) -> bool {
    match word.after.trim_start().chars().next() {
        Some(sign) => signs.contains(&sign),
        None => false,
    }
}

// Whether a word of the format stands where only a name can.
fn is_reserved(word: &Word<'_>) -> bool {
    match keyword_of(word) {
        None => false,
        Some(Keyword::Base) => stands_before(word, &['@', '.']),
        Some(_) => stands_before(word, &['@', '.', '=']),
    }
}

fn is_assembler_number(word: &Word<'_>) -> bool {
    let digits = word.text.trim_end_matches(['H', 'h']);
    matches!(word.text.as_bytes(), [b'0'..=b'9', .., b'H' | b'h'])
        && u64::from_str_radix(digits, 16).is_ok()
}

fn is_no_quote(letter: char) -> bool {
    !matches!(letter, '\'' | '"' | ';')
}

// Whether a text on the line has no second quote.
fn is_open(line: &str) -> bool {
    let mut left = line;
    for _ in 0..line.len() {
        let from = left.trim_start_matches(is_no_quote);
        let quote = if from.starts_with('\'') { '\'' } else { '"' };
        match from.strip_prefix(quote) {
            None => return false,
            Some(text) => match text.split_once(quote) {
                None => return true,
                Some((_, after)) => left = after,
            },
        }
    }
    false
}

/// Words that other linkers have after an export.
const FOREIGN_WORDS: [&str; 2] = ["PRIVATE", "NONAME"];

/// The word of other linkers that a name is, where it is one.
pub fn foreign_word(name: &[u8]) -> Option<&'static str> {
    for word in FOREIGN_WORDS {
        if word.as_bytes().eq_ignore_ascii_case(name) {
            return Some(word);
        }
    }
    None
}

fn is_statement(keyword: Keyword) -> bool {
    matches!(
        keyword,
        Keyword::Exports | Keyword::Imports | Keyword::StackSize | Keyword::HeapSize | Keyword::Base
    )
}

// The last statement with numbers that begins on a line of this number or before.
fn statement_at(bytes: &[u8], line: u32) -> Option<Keyword> {
    let mut lexer = Lexer::of(bytes);
    let mut last = None;
    for _ in 0..bytes.len() {
        let found = lexer.next();
        match found.token {
            _ if found.line > line => break,
            Token::End => break,
            Token::Keyword(keyword) if is_statement(keyword) => last = Some(keyword),
            _ => {}
        }
    }
    last
}

// What the numbers of a statement may be.
fn range_of(statement: Keyword) -> Option<&'static str> {
    match statement {
        Keyword::Base => Some("BASE is a multiple of 65,536 from 0x10000 to 0x1FFF0000"),
        Keyword::StackSize => Some("STACKSIZE is at most 16,777,216"),
        Keyword::HeapSize => Some("HEAPSIZE is at most 4,294,967,295"),
        Keyword::Exports => {
            Some("of an export: the ordinal after @ is 1 to 65,535, and its words are 0 to 31")
        }
        Keyword::Imports => Some("of an import: the ordinal is 1 to 65,535"),
        _ => None,
    }
}

/// What to do with a line.
#[derive(Clone, Copy)]
pub enum Advice<'a> {
    Text(&'a str),
    /// A word of the line, and what is said of it.
    OfWord(&'a str, &'static str),
    /// A number as assemblers have them, and its digits.
    OfNumber(&'a str, &'a str),
}

impl Display for Advice<'_> {
    fn fmt<W: Write>(&self, f: &mut Formatter<W>) -> fmt::Result {
        match *self {
            Advice::Text(text) => f.write_str(text),
            Advice::OfWord(word, text) => write!(f, "{word} {text}"),
            Advice::OfNumber(number, digits) => write!(
                f,
                "{number} is no number here: hexadecimal ones are written as 0x{digits}"
            ),
        }
    }
}

// What to do with a number that is not allowed.
fn of_number(bytes: &[u8], line: u32) -> Option<Advice<'static>> {
    let range = range_of(statement_at(bytes, line)?)?;
    Some(Advice::Text(range))
}

// What to do with bytes that are no token.
fn of_token(line: &str) -> Option<Advice<'_>> {
    if is_open(line) {
        return Some(Advice::Text(
            "a text is not closed: it ends in its line, with the quote that it begins with",
        ));
    }
    let number = find_word(line, Sought::AssemblerNumber)?.text;
    let digits = number.trim_end_matches(['H', 'h']);
    Some(Advice::OfNumber(number, digits))
}

// What to do where a statement has to begin.
fn of_statement(line: &str) -> Option<Advice<'_>> {
    if let Some(reserved) = find_word(line, Sought::ReservedName) {
        let text = "is a word of the format: as a name it stands in quotes";
        return Some(Advice::OfWord(reserved.text, text));
    }
    let first = first_word(line)?;
    if keyword_of(&first) != Some(Keyword::Unread) {
        return None;
    }
    let text = "begins a statement that is not read: remove it";
    Some(Advice::OfWord(first.text, text))
}

// What to do where something is missing.
fn of_expected(line: &str) -> Option<Advice<'_>> {
    if let Some(class) = find_word(line, Sought::Textless(Keyword::Class)) {
        let text = "wants the class in quotes, as CLASS 'CODE'";
        return Some(Advice::OfWord(class.text, text));
    }
    let description = find_word(line, Sought::Textless(Keyword::Description))?;
    let text = "wants its text in quotes, in the same line or the next";
    Some(Advice::OfWord(description.text, text))
}

/// What to do with the line of a fault, where that can be told. `bytes` are the file's.
pub fn advice_on<'a>(bytes: &[u8], line: &'a str, fault: DefRefusal) -> Option<Advice<'a>> {
    match fault.kind {
        DefKind::Token => of_token(line),
        DefKind::Statement => of_statement(line),
        DefKind::Expected => of_expected(line),
        DefKind::Number => of_number(bytes, fault.line),
        DefKind::Conflict | DefKind::Twice | DefKind::TooLong => None,
    }
}
