//! A definition file, token by token.

ghost use Rattle.std.specs.Prelude.{◌≡◌, IfOk};
ghost use Rattle.def_tokens.specs.Seen.{lexeme_of};
ghost use Rattle.def_model.specs.Tokens.{tokens_of};
ghost use Rattle.obj_types.specs.Definition.{WholeDef};
ghost use Rattle.lx_types.specs.Answers.{if_said, Gives};
ghost use Rattle.def_file.specs.Stated.{Stated};
ghost use Rattle.def_file.specs.Whole.{WholeReading, WholeDraft, WholePlace, FitsKind};
ghost use Rattle.def_model.specs.Draft.{reading};
ghost use Rattle.def_model.specs.Meaning.{file_of};
ghost use Rattle.def_model.specs.Reading.{token_at, step, fail_at, run, read_of};

use crate::draft::fresh;
use crate::exports::{export, exports, internal, ordinal};
use crate::imports::{import_dot, import_equals, import_first, import_module, imports};
use crate::meaning::file_of;
use crate::segments::{attributes, class, segment, segments};
use crate::statements::{
    base, description, exe_type, library, library_words, program, program_name, size, statement,
};
use def_model::{DefKind, DefRefusal, Draft, Place, Reading};
use def_tokens::{Lexer, Token};
use lx_types::Fail;
use obj_types::DefFile;
use std::alloc::Global;

// What a token says after each place.
#[tactic(auto, unfolding(def_model::specs::Reading::token_at))]
fn token_at(
    alloc: Global,
    draft: &mut Draft,
    place: Place,
    token: Token<'_>,
) -> Result<Place, Fail<DefKind>>
    requires whole { WholeDraft draft.old }
    requires place { WholePlace place }
    requires kind { FitsKind place draft.old.kind }
    ensures value { Gives (reading draft.new) if_said result (token_at draft.old place (lexeme_of token.entry)) }
    ensures whole { IfOk result (λ p. WholeReading (reading draft.new p)) }
{
    match place {
        Place::Statement => statement(draft, token),
        Place::Program => program(alloc, draft, token),
        Place::ProgramName => program_name(draft, token),
        Place::Library => library(alloc, draft, token),
        Place::LibraryWords => library_words(draft, token),
        Place::Description => description(alloc, draft, token),
        Place::Attributes { of, words } => attributes(alloc, draft, of, words, token),
        Place::Segments => segments(alloc, draft, token),
        Place::Segment { name } => segment(alloc, draft, name, token),
        Place::Class { name } => class(alloc, name, token),
        Place::Exports => exports(alloc, draft, token),
        Place::Export { item, part } => export(alloc, draft, item, part, token),
        Place::Internal { item } => internal(alloc, item, token),
        Place::Ordinal { item } => ordinal(item, token),
        Place::Imports => imports(alloc, draft, token),
        Place::Import { name } => import_first(name, token),
        Place::ImportEquals { internal } => import_equals(alloc, internal, token),
        Place::ImportModule { internal, module } => import_module(internal, module, token),
        Place::ImportDot { internal, module } => import_dot(alloc, draft, internal, module, token),
        Place::Size(which) => size(draft, which, token),
        Place::Base => base(token),
        Place::ExeType => exe_type(alloc, token),
    }
}

// The next token. Bytes that are none are refused first.
#[tactic(auto, unfolding(def_model::specs::Reading::step))]
fn step(
    alloc: Global,
    draft: &mut Draft,
    place: Place,
    token: Token<'_>,
) -> Result<Place, Fail<DefKind>>
    requires { WholeReading (reading draft.old place) }
    ensures value { Gives (reading draft.new) if_said result (step (reading draft.old place) (lexeme_of token.entry)) }
    ensures whole { IfOk result (λ p. WholeReading (reading draft.new p)) }
{
    if token.is_stray() {
        // (by a call: written out, the end of each variant is proved where it stands)
        drop(place);
        return Err(Fail::Said(DefKind::Token));
    }
    token_at(alloc, draft, place, token)
}

// A refusal has the line of its token.
fn at_line(line: u32, fail: Fail<DefKind>) -> Fail<DefRefusal>
    ensures { result ≡ fail_at line fail }
{
    match fail {
        Fail::Said(kind) => Fail::Said(DefRefusal { line, kind }),
        Fail::NoMemory => Fail::NoMemory,
    }
}

// The rest of a file, from a place on.
fn rest(
    alloc: Global,
    draft: &mut Draft,
    start: Place,
    bytes: &[u8],
) -> Result<(), Fail<DefRefusal>>
    requires { WholeReading (reading draft.old start) }
    ensures value { Gives (λ _. file_of draft.new) if_said result (run (reading draft.old start) (tokens_of bytes.now)) }
    ensures whole { IfOk result (λ _. WholeDraft draft.new) }
{
    let mut lexer = Lexer::of(bytes);
    let mut place = start;
    loop {
        let at = lexer.next();
        place = match step(alloc, draft, place, at.token) {
            Ok(next) => next,
            Err(fail) => return Err(at_line(at.line, fail)),
        };
        if at.token.is_end() {
            drop(place);
            return Ok(());
        }
    }
}

/// Reads a definition file, in time linear in its length. It is refused by its first fault in the
/// order of the file. What is read is whole, and statements can give it, so that it can be written again.
pub fn read_def(alloc: Global, bytes: &[u8]) -> Result<DefFile, Fail<DefRefusal>>
    ensures read { Gives (λ x. x) if_said result (read_of bytes.now) }
    ensures whole { IfOk result (λ file. WholeDef file) }
    ensures stated { IfOk result (λ file. Stated file) }
{
    let Reading { mut draft, place } = fresh(alloc);
    rest(alloc, &mut draft, place, bytes)?;
    Ok(file_of(alloc, draft)?)
}
