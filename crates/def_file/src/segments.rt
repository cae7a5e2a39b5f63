//! CODE, DATA and SEGMENTS.

ghost use Rattle.std.specs.Prelude.{IfOk, ◌≢◌, []};
ghost use Rattle.def_tokens.specs.Seen.{lexeme_of};
ghost use Rattle.lx_types.specs.Answers.{if_said, Gives};
ghost use Rattle.def_model.specs.declared.draft.Draft.{Draft};
ghost use Rattle.def_model.specs.Draft.{reading};
ghost use Rattle.def_file.specs.Whole.{WholeReading, WholeDraft, WholeOwner};
ghost use Rattle.def_model.specs.Segments.{segments, after_list, attributes, segment, class};

use crate::attributes::with_word;
use crate::names::{name_of, text_of};
use crate::statements::statement;
use def_model::{DefKind, Draft, Keyword, Owner, Place, SegDraft, Words};
use def_tokens::Token;
use lx_types::{Fail, Name};
use std::alloc::Global;

/// Another item of SEGMENTS, or the next statement.
#[tactic(auto, unfolding(def_model::specs::Segments::segments))]
pub fn segments(alloc: Global, draft: &Draft, token: Token<'_>) -> Result<Place, Fail<DefKind>>
    requires { WholeDraft draft.now }
    ensures value { Gives (reading draft.now) if_said result (segments draft.now (lexeme_of token.entry)) }
    ensures whole { IfOk result (λ p. WholeReading (reading draft.now p)) }
{
    match token.name() {
        Some(bytes) => {
            let name = name_of(alloc, bytes)?;
            Ok(Place::Segment { name })
        }
        None => statement(draft, token),
    }
}

// After the last attribute of a list.
#[tactic(auto, using(crate::proofs::WholeLaws::all_pushed), unfolding(def_model::specs::Segments::after_list))]
fn after_list(
    alloc: Global,
    draft: &mut Draft,
    of: Owner,
    words: Words,
    token: Token<'_>,
) -> Result<Place, Fail<DefKind>>
    requires whole { WholeDraft draft.old }
    requires owner { WholeOwner of }
    ensures value { Gives (reading draft.new) if_said result (after_list draft.old of words (lexeme_of token.entry)) }
    ensures whole { IfOk result (λ p. WholeReading (reading draft.new p)) }
{
    match of {
        Owner::Code => {
            draft.code = Some(words);
            statement(draft, token)
        }
        Owner::Data => {
            draft.plain = Some(words);
            statement(draft, token)
        }
        Owner::Segment { name, class } => {
            draft.segs.push(SegDraft { name, class, words })?;
            segments(alloc, draft, token)
        }
    }
}

/// In a list of attributes.
#[tactic(auto, unfolding(def_model::specs::Segments::attributes))]
pub fn attributes(
    alloc: Global,
    draft: &mut Draft,
    of: Owner,
    words: Words,
    token: Token<'_>,
) -> Result<Place, Fail<DefKind>>
    requires whole { WholeDraft draft.old }
    requires owner { WholeOwner of }
    ensures value { Gives (reading draft.new) if_said result (attributes draft.old of words (lexeme_of token.entry)) }
    ensures whole { IfOk result (λ p. WholeReading (reading draft.new p)) }
{
    match token.keyword() {
        Some(Keyword::Attribute(pair, on)) => {
            let words = with_word(words, pair, on)?;
            Ok(Place::Attributes { of, words })
        }
        Some(Keyword::NoEffect) => Ok(Place::Attributes { of, words }),
        _ => after_list(alloc, draft, of, words, token),
    }
}

/// After the name of an item of SEGMENTS.
#[tactic(auto, unfolding(def_model::specs::Segments::segment))]
pub fn segment(
    alloc: Global,
    draft: &mut Draft,
    name: Name,
    token: Token<'_>,
) -> Result<Place, Fail<DefKind>>
    requires whole { WholeDraft draft.old }
    requires name { name ≢ [] }
    ensures value { Gives (reading draft.new) if_said result (segment draft.old name (lexeme_of token.entry)) }
    ensures whole { IfOk result (λ p. WholeReading (reading draft.new p)) }
{
    match token.keyword() {
        Some(Keyword::Class) => Ok(Place::Class { name }),
        _ => {
            let of = Owner::Segment { name, class: None };
            attributes(alloc, draft, of, Words::NONE, token)
        }
    }
}

/// After CLASS.
#[tactic(auto, unfolding(def_model::specs::Segments::class))]
pub fn class(alloc: Global, name: Name, token: Token<'_>) -> Result<Place, Fail<DefKind>>
    requires name { name ≢ [] }
    ensures value { (d : Draft) → Gives (reading d) if_said result (class d name (lexeme_of token.entry)) }
    ensures whole { (d : Draft) → WholeDraft d → IfOk result (λ p. WholeReading (reading d p)) }
{
    match token.text() {
        Some(bytes) => {
            let class = Some(text_of(alloc, bytes)?);
            let of = Owner::Segment { name, class };
            Ok(Place::Attributes {
                of,
                words: Words::NONE,
            })
        }
        None => Err(Fail::Said(DefKind::Expected)),
    }
}
