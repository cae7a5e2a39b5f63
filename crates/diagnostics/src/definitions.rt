//! What is noticed of a definition file ("Module Definition Files" of the Toolkit's tools reference).

use def_model::Keyword;
use def_tokens::{Lexer, Token, TokenAt};
use refusal_notes::{Lines, foreign_word, note};
use std::alloc::{AllocError, Global};

/// A list that has nothing in it: the line and the word that begin it.
#[derive(Clone, Copy)]
struct EmptyList {
    line: u32,
    word: &'static str,
}

/// What was noticed of a definition file.
#[derive(Drop)]
pub struct DefinitionSlips {
    pub name: String,
    /// Whether it gives a program a stack.
    pub has_stack: bool,
    /// The line with a word of NAME that says nothing.
    window: Option<u32>,
    empty: Vec<EmptyList>,
    /// Exports that have the name of a word of other linkers.
    foreign: Vec<&'static str>,
}

/// A file that is read up to a place: the statement, and the list that has begun and has nothing yet.
#[derive(Drop)]
struct Reading {
    slips: DefinitionSlips,
    statement: Option<Keyword>,
    begun: Option<EmptyList>,
}

fn begins_statement(keyword: Keyword) -> bool {
    matches!(
        keyword,
        Keyword::Name
            | Keyword::Library
            | Keyword::Description
            | Keyword::Code
            | Keyword::Data
            | Keyword::Segments
            | Keyword::Exports
            | Keyword::Imports
            | Keyword::StackSize
            | Keyword::HeapSize
            | Keyword::Base
            | Keyword::ProtMode
            | Keyword::ExeType
    )
}

// The list that a statement begins.
fn list_word(keyword: Keyword) -> Option<&'static str> {
    match keyword {
        Keyword::Segments => Some("SEGMENTS"),
        Keyword::Exports => Some("EXPORTS"),
        Keyword::Imports => Some("IMPORTS"),
        _ => None,
    }
}

impl Reading {
    fn begin(&mut self, line: u32, keyword: Keyword) {
        self.statement = Some(keyword);
        self.begun = match list_word(keyword) {
            Some(word) => Some(EmptyList { line, word }),
            None => None,
        };
    }

    // Ends a statement, where the list that it began may be empty.
    fn end(&mut self) -> Result<(), AllocError> {
        if let Some(list) = self.begun.take() {
            self.slips.empty.push(list)?;
        }
        Ok(())
    }

    // Takes a name or a text.
    fn take_name(&mut self, name: &[u8]) -> Result<(), AllocError> {
        if let (Some(Keyword::Exports), Some(word)) = (self.statement, foreign_word(name)) {
            self.slips.foreign.push(word)?;
        }
        Ok(())
    }

    fn take(&mut self, found: TokenAt<'_>) -> Result<(), AllocError> {
        match found.token {
            Token::End => return self.end(),
            Token::Keyword(keyword) if begins_statement(keyword) => {
                self.end()?;
                self.begin(found.line, keyword);
                return Ok(());
            }
            Token::Number(Some(size)) if matches!(self.statement, Some(Keyword::StackSize)) => self
                .slips
                .has_stack = size > 0,
            Token::Word(name) | Token::Text(name) => self.take_name(name)?,
            Token::Keyword(Keyword::Window) => self.slips.window = Some(found.line),
            _ => {}
        }
        self.begun = None;
        Ok(())
    }
}

/// What is noticed of a definition file.
pub fn definition_slips(
    alloc: Global,
    name: &str,
    bytes: &[u8],
) -> Result<DefinitionSlips, AllocError> {
    let mut reading = Reading {
        slips: DefinitionSlips {
            name: name.to_string(alloc)?,
            has_stack: false,
            window: None,
            empty: Vec::new(alloc),
            foreign: Vec::new(alloc),
        },
        statement: None,
        begun: None,
    };
    let mut lexer = Lexer::of(bytes);
    for _ in 0..=bytes.len() {
        let found = lexer.next();
        let is_end = found.token.is_end();
        reading.take(found)?;
        if is_end {
            break;
        }
    }
    Ok(reading.slips)
}

impl DefinitionSlips {
    /// Warns of what looks like a slip.
    pub fn warn(&self, lines: &mut Lines) {
        let name = self.name.as_str();
        for list in &self.empty {
            let EmptyList { line, word } = *list;
            note!(lines; "{name}: line {line}: {word} is empty: a statement or the end comes after it (a name that is a word of the format stands in quotes, as 'Data')");
        }
        for word in &self.foreign {
            note!(lines; "{name}: {word} is the name of an export: there is no such word here");
        }
        match self.window {
            Some(line) =>
                note!(lines; "{name}: line {line}: WINDOWAPI, WINDOWCOMPAT and NOTWINDOWCOMPAT say nothing here: the module's flags for them stay 0"),
            None => {}
        }
    }
}
