//! The statements, and those that give one thing.

ghost use Rattle.std.specs.Prelude.{◌≡◌, IfOk, IfSome, None, Some};
ghost use Rattle.obj_types.specs.declared.definition.ModKind.TheVariants as modules;
ghost use Rattle.def_tokens.specs.Seen.{lexeme_of};
ghost use Rattle.lx_types.specs.Answers.{if_said, Gives};
ghost use Rattle.def_file.specs.Whole.{WholeReading, WholeDraft, WholePlace};
ghost use Rattle.def_model.specs.declared.draft.Draft.{Draft};
ghost use Rattle.def_model.specs.Draft.{reading};
ghost use Rattle.def_model.specs.Statements.{begun_by, is_second, keyword_statement, statement, program_name, program, library_words, library, description, sized, size, base, exe_type};

use crate::attributes::agreed;
use crate::names::{name_of, text_of};
use crate::numbers::{base_of, within};
use def_model::{DefKind, Draft, Keyword, Owner, Place, Size, Words};
use def_tokens::Token;
use lx_types::Fail;
use obj_types::{MAX_DATA, ModKind};
use std::alloc::Global;

// What a keyword begins, if it begins a statement that is read.
fn begun_by(keyword: Keyword) -> Option<Place>
    ensures value { result ≡ begun_by keyword }
    ensures whole { IfSome result (λ place. WholePlace place) }
{
    let place = match keyword {
        Keyword::Name => Place::Program,
        Keyword::Library => Place::Library,
        Keyword::Description => Place::Description,
        Keyword::Code => Place::Attributes {
            of: Owner::Code,
            words: Words::NONE,
        },
        Keyword::Data => Place::Attributes {
            of: Owner::Data,
            words: Words::NONE,
        },
        Keyword::Segments => Place::Segments,
        Keyword::Exports => Place::Exports,
        Keyword::Imports => Place::Imports,
        Keyword::StackSize => Place::Size(Size::Stack),
        Keyword::HeapSize => Place::Size(Size::Heap),
        Keyword::Base => Place::Base,
        Keyword::ProtMode => Place::Statement,
        Keyword::ExeType => Place::ExeType,
        _ => return None,
    };
    Some(place)
}

// Whether the keyword begins a statement that stands in the file already, and may stand there once.
fn is_second(draft: &Draft, keyword: Keyword) -> bool
    ensures { result ≡ is_second draft.now keyword }
{
    match keyword {
        Keyword::Name | Keyword::Library => draft.kind.is_some(),
        Keyword::Description => draft.about.is_some(),
        Keyword::Code => draft.code.is_some(),
        Keyword::Data => draft.plain.is_some(),
        Keyword::StackSize => draft.stack.is_some(),
        Keyword::HeapSize => draft.heap.is_some(),
        Keyword::Base => draft.base.is_some(),
        _ => false,
    }
}

#[tactic(auto, using(crate::proofs::KindLaws::begun_kind, crate::proofs::KindLaws::twice), unfolding(def_model::specs::Statements::keyword_statement))]
fn keyword_statement(draft: &Draft, keyword: Keyword) -> Result<Place, Fail<DefKind>>
    requires { WholeDraft draft.now }
    ensures value { Gives (reading draft.now) if_said result (keyword_statement draft.now keyword) }
    ensures whole { IfOk result (λ p. WholeReading (reading draft.now p)) }
{
    if is_second(draft, keyword) {
        return Err(Fail::Said(DefKind::Twice));
    }
    match begun_by(keyword) {
        Some(place) => Ok(place),
        None => Err(Fail::Said(DefKind::Statement)),
    }
}

/// A statement, or the file's end.
#[tactic(auto, unfolding(def_model::specs::Statements::statement))]
pub fn statement(draft: &Draft, token: Token<'_>) -> Result<Place, Fail<DefKind>>
    requires { WholeDraft draft.now }
    ensures value { Gives (reading draft.now) if_said result (statement draft.now (lexeme_of token.entry)) }
    ensures whole { IfOk result (λ p. WholeReading (reading draft.now p)) }
{
    match token.keyword() {
        Some(keyword) => keyword_statement(draft, keyword),
        None if token.is_end() => Ok(Place::Statement),
        None => Err(Fail::Said(DefKind::Statement)),
    }
}

/// After NAME and a name: a window word may stand.
#[tactic(auto, unfolding(def_model::specs::Statements::program_name))]
pub fn program_name(draft: &Draft, token: Token<'_>) -> Result<Place, Fail<DefKind>>
    requires { WholeDraft draft.now }
    ensures value { Gives (reading draft.now) if_said result (program_name draft.now (lexeme_of token.entry)) }
    ensures whole { IfOk result (λ p. WholeReading (reading draft.now p)) }
{
    match token.keyword() {
        Some(Keyword::Window) => Ok(Place::Statement),
        _ => statement(draft, token),
    }
}

/// After NAME.
#[tactic(auto, using(crate::proofs::KindLaws::calls_none), unfolding(def_model::specs::Statements::program))]
pub fn program(alloc: Global, draft: &mut Draft, token: Token<'_>) -> Result<Place, Fail<DefKind>>
    requires whole { WholeDraft draft.old }
    requires kind { draft.old.kind ≡ None }
    ensures value { Gives (reading draft.new) if_said result (program draft.old (lexeme_of token.entry)) }
    ensures whole { IfOk result (λ p. WholeReading (reading draft.new p)) }
{
    draft.kind = Some(ModKind::Program);
    match token.name() {
        Some(bytes) => {
            draft.name = Some(name_of(alloc, bytes)?);
            Ok(Place::ProgramName)
        }
        None => program_name(draft, token),
    }
}

/// After LIBRARY and its name or words: a word on its calls may stand.
#[tactic(auto, using(crate::proofs::KindLaws::calls_of_library), unfolding(def_model::specs::Statements::library_words))]
pub fn library_words(draft: &mut Draft, token: Token<'_>) -> Result<Place, Fail<DefKind>>
    requires whole { WholeDraft draft.old }
    requires kind { draft.old.kind ≡ Some modules.Library }
    ensures value { Gives (reading draft.new) if_said result (library_words draft.old (lexeme_of token.entry)) }
    ensures whole { IfOk result (λ p. WholeReading (reading draft.new p)) }
{
    match token.keyword() {
        Some(Keyword::Init { each }) => {
            draft.init_each = agreed(draft.init_each, each)?;
            Ok(Place::LibraryWords)
        }
        Some(Keyword::Term { each }) => {
            draft.term_each = agreed(draft.term_each, each)?;
            Ok(Place::LibraryWords)
        }
        _ => statement(draft, token),
    }
}

/// After LIBRARY.
#[tactic(auto, unfolding(def_model::specs::Statements::library))]
pub fn library(alloc: Global, draft: &mut Draft, token: Token<'_>) -> Result<Place, Fail<DefKind>>
    requires whole { WholeDraft draft.old }
    requires kind { draft.old.kind ≡ None }
    ensures value { Gives (reading draft.new) if_said result (library draft.old (lexeme_of token.entry)) }
    ensures whole { IfOk result (λ p. WholeReading (reading draft.new p)) }
{
    draft.kind = Some(ModKind::Library);
    match token.name() {
        Some(bytes) => {
            draft.name = Some(name_of(alloc, bytes)?);
            Ok(Place::LibraryWords)
        }
        None => library_words(draft, token),
    }
}

/// After DESCRIPTION.
#[tactic(auto, unfolding(def_model::specs::Statements::description))]
pub fn description(
    alloc: Global,
    draft: &mut Draft,
    token: Token<'_>,
) -> Result<Place, Fail<DefKind>>
    requires { WholeDraft draft.old }
    ensures value { Gives (reading draft.new) if_said result (description draft.old (lexeme_of token.entry)) }
    ensures whole { IfOk result (λ p. WholeReading (reading draft.new p)) }
{
    match token.text() {
        Some(bytes) => {
            draft.about = Some(text_of(alloc, bytes)?);
            Ok(Place::Statement)
        }
        None => Err(Fail::Said(DefKind::Expected)),
    }
}

// The number of STACKSIZE, HEAPSIZE or BASE.
#[tactic(auto, unfolding(def_model::specs::Statements::sized))]
fn sized(draft: &mut Draft, which: Size, value: Option<u32>) -> Result<Place, Fail<DefKind>>
    requires { WholeDraft draft.old }
    ensures value { Gives (reading draft.new) if_said result (sized draft.old which value) }
    ensures whole { IfOk result (λ p. WholeReading (reading draft.new p)) }
{
    match which {
        Size::Stack => draft.stack = Some(within(0, MAX_DATA, value)?),
        Size::Heap => draft.heap = Some(within(0, u32::MAX, value)?),
        Size::Base => draft.base = Some(base_of(value)?),
    }
    Ok(Place::Statement)
}

/// Where the number of STACKSIZE, HEAPSIZE or BASE has to stand.
#[tactic(auto, unfolding(def_model::specs::Statements::size))]
pub fn size(draft: &mut Draft, which: Size, token: Token<'_>) -> Result<Place, Fail<DefKind>>
    requires { WholeDraft draft.old }
    ensures value { Gives (reading draft.new) if_said result (size draft.old which (lexeme_of token.entry)) }
    ensures whole { IfOk result (λ p. WholeReading (reading draft.new p)) }
{
    match token.number() {
        Some(value) => sized(draft, which, value),
        None => Err(Fail::Said(DefKind::Expected)),
    }
}

/// After BASE.
#[tactic(auto, unfolding(def_model::specs::Statements::base))]
pub fn base(token: Token<'_>) -> Result<Place, Fail<DefKind>>
    ensures value { (d : Draft) → Gives (reading d) if_said result (base d (lexeme_of token.entry)) }
    ensures whole { (d : Draft) → WholeDraft d → IfOk result (λ p. WholeReading (reading d p)) }
{
    if token.is_equals() {
        Ok(Place::Size(Size::Base))
    } else {
        Err(Fail::Said(DefKind::Expected))
    }
}

/// After EXETYPE.
#[tactic(auto, unfolding(def_model::specs::Statements::exe_type))]
pub fn exe_type(alloc: Global, token: Token<'_>) -> Result<Place, Fail<DefKind>>
    ensures value { (d : Draft) → Gives (reading d) if_said result (exe_type d (lexeme_of token.entry)) }
    ensures whole { (d : Draft) → WholeDraft d → IfOk result (λ p. WholeReading (reading d p)) }
{
    match token.name() {
        Some(bytes) => {
            name_of(alloc, bytes)?;
            Ok(Place::Statement)
        }
        None => Err(Fail::Said(DefKind::Expected)),
    }
}
