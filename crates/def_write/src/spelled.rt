//! The tokens of the statements, as they are written.

ghost use Rattle.std.specs.Prelude.{◌≡◌, ◌++◌, map, IfOk, IfSome};
ghost use Rattle.lx_types.specs.Names.{IsName};
ghost use Rattle.def_tokens.specs.Seen.{lexeme_of};
ghost use Rattle.def_write.specs.Names.{SegmentNames, ExportNames, EntryName, ImportNames};
ghost use Rattle.def_write.specs.Writing.{kind_tokens, attribute_tokens, segment_tokens, ordinal_tokens, flag_tokens, words_tokens, export_tokens, entry_token, import_tokens};

use def_model::{Keyword, Pair};
use def_tokens::Token;
use lx_types::{EntryKey, NoMemory};
use obj_types::{Attrs, DefFile, Exp, Imp, ModKind, SegAttrs};

/// Adds NAME or LIBRARY.
pub fn push_kind<'a>(tokens: &mut Vec<Token<'a>>, d: &'a DefFile) -> Result<(), NoMemory>
    ensures tokens { IfOk result (λ _. map lexeme_of tokens.new.items
        ≡ map lexeme_of tokens.old.items ++ kind_tokens d.now.kind d.now.name d.now.init_each d.now.term_each) }
    ensures short { IfOk result (λ _. IfSome d.now.name IsName) }
{
    tokens.push(Token::Keyword(match d.kind {
        ModKind::Program => Keyword::Name,
        ModKind::Library => Keyword::Library,
    }))?;
    if let Some(name) = &d.name {
        tokens.push(Token::Text(name.bytes()))?;
    }
    if let ModKind::Library = d.kind {
        tokens.extend_from_slice(&[
            Token::Keyword(Keyword::Init { each: d.init_each }),
            Token::Keyword(Keyword::Term { each: d.term_each }),
        ])?;
    }
    Ok(())
}

/// Adds the words of a list of attributes.
pub fn push_attributes(tokens: &mut Vec<Token<'_>>, attrs: Attrs) -> Result<(), NoMemory>
    ensures { IfOk result (λ _. map lexeme_of tokens.new.items
        ≡ map lexeme_of tokens.old.items ++ attribute_tokens attrs) }
{
    if attrs.exec {
        tokens.push(Token::Keyword(Keyword::Attribute(Pair::Read, attrs.read)))?;
    }
    tokens.extend_from_slice(&[
        Token::Keyword(Keyword::Attribute(Pair::Write, attrs.write)),
        Token::Keyword(Keyword::Attribute(Pair::Shared, attrs.shared)),
        Token::Keyword(Keyword::Attribute(Pair::Preload, attrs.preload)),
        Token::Keyword(Keyword::Attribute(Pair::Conforming, attrs.conforming)),
        Token::Keyword(Keyword::Attribute(Pair::Iopl, attrs.iopl)),
    ])?;
    Ok(())
}

/// Adds an item of SEGMENTS.
pub fn push_segment<'a>(tokens: &mut Vec<Token<'a>>, s: &'a SegAttrs) -> Result<(), NoMemory>
    ensures tokens { IfOk result (λ _. map lexeme_of tokens.new.items
        ≡ map lexeme_of tokens.old.items ++ segment_tokens s.now) }
    ensures short { IfOk result (λ _. SegmentNames IsName s.now) }
{
    tokens.push(Token::Text(s.name.bytes()))?;
    if let Some(class) = &s.class {
        let class = Token::Text(class.bytes());
        tokens.extend_from_slice(&[Token::Keyword(Keyword::Class), class])?;
    }
    push_attributes(tokens, s.attrs)
}

fn push_ordinal(tokens: &mut Vec<Token<'_>>, ordinal: Option<u16>) -> Result<(), NoMemory>
    ensures { IfOk result (λ _. map lexeme_of tokens.new.items
        ≡ map lexeme_of tokens.old.items ++ ordinal_tokens ordinal) }
{
    if let Some(ordinal) = ordinal {
        let ordinal = Token::Number(Some(u32::from(ordinal)));
        tokens.extend_from_slice(&[Token::At, ordinal])?;
    }
    Ok(())
}

// Adds a word where something holds.
fn push_flag(tokens: &mut Vec<Token<'_>>, holds: bool, word: Keyword) -> Result<(), NoMemory>
    ensures { IfOk result (λ _. map lexeme_of tokens.new.items
        ≡ map lexeme_of tokens.old.items ++ flag_tokens holds word) }
{
    if holds {
        tokens.push(Token::Keyword(word))?;
    }
    Ok(())
}

fn push_words(tokens: &mut Vec<Token<'_>>, words: u8) -> Result<(), NoMemory>
    ensures { IfOk result (λ _. map lexeme_of tokens.new.items
        ≡ map lexeme_of tokens.old.items ++ words_tokens words) }
{
    if words != 0 {
        tokens.push(Token::Number(Some(u32::from(words))))?;
    }
    Ok(())
}

/// Adds an item of EXPORTS.
pub fn push_export<'a>(tokens: &mut Vec<Token<'a>>, e: &'a Exp) -> Result<(), NoMemory>
    ensures tokens { IfOk result (λ _. map lexeme_of tokens.new.items
        ≡ map lexeme_of tokens.old.items ++ export_tokens e.now) }
    ensures short { IfOk result (λ _. ExportNames IsName e.now) }
{
    let name = Token::Text(e.name.bytes());
    let internal = Token::Text(e.internal.bytes());
    tokens.extend_from_slice(&[name, Token::Equals, internal])?;
    push_ordinal(tokens, e.ordinal)?;
    push_flag(tokens, e.resident, Keyword::ResidentName)?;
    push_flag(tokens, e.nodata, Keyword::NoData)?;
    push_words(tokens, e.words)
}

// How an import asks for its entry.
fn entry_token(entry: &EntryKey) -> Token<'_>
    ensures token { lexeme_of result ≡ entry_token entry.now }
    ensures short { EntryName IsName entry.now }
{
    match entry {
        EntryKey::Ordinal(ordinal) => Token::Number(Some(*ordinal)),
        EntryKey::Named(name) => Token::Text(name.bytes()),
    }
}

/// An item of IMPORTS.
pub fn import_tokens(i: &Imp) -> [Token<'_>; 5]
    ensures tokens { map lexeme_of result ≡ import_tokens i.now }
    ensures short { ImportNames IsName i.now }
{
    let name = Token::Text(i.name.bytes());
    let from = Token::Text(i.module.bytes());
    [name, Token::Equals, from, Token::Dot, entry_token(&i.entry)]
}
