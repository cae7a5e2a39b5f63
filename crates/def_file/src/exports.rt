//! EXPORTS.

ghost use Rattle.std.specs.Prelude.{◌≡◌, IfOk};
ghost use Rattle.def_tokens.specs.Seen.{lexeme_of};
ghost use Rattle.obj_types.specs.Definition.{WholeExport};
ghost use Rattle.lx_types.specs.Answers.{if_said, Gives};
ghost use Rattle.def_model.specs.declared.draft.Draft.{Draft};
ghost use Rattle.def_model.specs.Draft.{reading};
ghost use Rattle.def_file.specs.Whole.{WholeReading, WholeDraft};
ghost use Rattle.def_model.specs.Exports.{with_export, exports, after_nodata, after_resident, after_ordinal, after_internal, after_name, export, internal, ordinal};

use crate::names::name_of;
use crate::numbers::within;
use crate::statements::statement;
use def_model::{DefKind, Draft, Keyword, Part, Place};
use def_tokens::Token;
use lx_types::{Fail, NoMemory};
use obj_types::Exp;
use std::alloc::Global;

/// Another item of EXPORTS, or the next statement.
#[tactic(auto, unfolding(def_model::specs::Exports::exports))]
pub fn exports(alloc: Global, draft: &Draft, token: Token<'_>) -> Result<Place, Fail<DefKind>>
    requires { WholeDraft draft.now }
    ensures value { Gives (reading draft.now) if_said result (exports draft.now (lexeme_of token.entry)) }
    ensures whole { IfOk result (λ p. WholeReading (reading draft.now p)) }
{
    match token.name() {
        Some(bytes) => {
            let item = Exp {
                name: name_of(alloc, bytes)?,
                internal: name_of(alloc, bytes)?,
                ordinal: None,
                resident: false,
                nodata: false,
                words: 0,
            };
            Ok(Place::Export {
                item,
                part: Part::Name,
            })
        }
        None => statement(draft, token),
    }
}

// A whole item.
#[tactic(auto, using(crate::proofs::WholeLaws::all_pushed))]
fn with_export(draft: &mut Draft, item: Exp) -> Result<(), NoMemory>
    requires whole { WholeDraft draft.old }
    requires item { WholeExport item }
    ensures value { IfOk result (λ _. draft.new ≡ with_export draft.old item) }
    ensures whole { IfOk result (λ _. WholeDraft draft.new) }
{
    draft.exports.push(item)?;
    Ok(())
}

// The number of parameter words, or the next item.
#[tactic(auto, unfolding(def_model::specs::Exports::after_nodata))]
fn after_nodata(
    alloc: Global,
    draft: &mut Draft,
    mut item: Exp,
    token: Token<'_>,
) -> Result<Place, Fail<DefKind>>
    requires whole { WholeDraft draft.old }
    requires item { WholeExport item }
    ensures value { Gives (reading draft.new) if_said result (after_nodata draft.old item (lexeme_of token.entry)) }
    ensures whole { IfOk result (λ p. WholeReading (reading draft.new p)) }
{
    match token.number() {
        Some(value) => {
            item.words = within(0, 31, value)? as u8;
            with_export(draft, item)?;
            Ok(Place::Exports)
        }
        None => {
            with_export(draft, item)?;
            exports(alloc, draft, token)
        }
    }
}

#[tactic(auto, unfolding(def_model::specs::Exports::after_resident))]
fn after_resident(
    alloc: Global,
    draft: &mut Draft,
    mut item: Exp,
    token: Token<'_>,
) -> Result<Place, Fail<DefKind>>
    requires whole { WholeDraft draft.old }
    requires item { WholeExport item }
    ensures value { Gives (reading draft.new) if_said result (after_resident draft.old item (lexeme_of token.entry)) }
    ensures whole { IfOk result (λ p. WholeReading (reading draft.new p)) }
{
    match token.keyword() {
        Some(Keyword::NoData) => {
            item.nodata = true;
            let part = Part::NoData;
            Ok(Place::Export { item, part })
        }
        _ => after_nodata(alloc, draft, item, token),
    }
}

#[tactic(auto, unfolding(def_model::specs::Exports::after_ordinal))]
fn after_ordinal(
    alloc: Global,
    draft: &mut Draft,
    mut item: Exp,
    token: Token<'_>,
) -> Result<Place, Fail<DefKind>>
    requires whole { WholeDraft draft.old }
    requires item { WholeExport item }
    ensures value { Gives (reading draft.new) if_said result (after_ordinal draft.old item (lexeme_of token.entry)) }
    ensures whole { IfOk result (λ p. WholeReading (reading draft.new p)) }
{
    match token.keyword() {
        Some(Keyword::ResidentName) => {
            item.resident = true;
            let part = Part::Resident;
            Ok(Place::Export { item, part })
        }
        _ => after_resident(alloc, draft, item, token),
    }
}

#[tactic(auto, unfolding(def_model::specs::Exports::after_internal))]
fn after_internal(
    alloc: Global,
    draft: &mut Draft,
    item: Exp,
    token: Token<'_>,
) -> Result<Place, Fail<DefKind>>
    requires whole { WholeDraft draft.old }
    requires item { WholeExport item }
    ensures value { Gives (reading draft.new) if_said result (after_internal draft.old item (lexeme_of token.entry)) }
    ensures whole { IfOk result (λ p. WholeReading (reading draft.new p)) }
{
    if token.is_at() {
        Ok(Place::Ordinal { item })
    } else {
        after_ordinal(alloc, draft, item, token)
    }
}

#[tactic(auto, unfolding(def_model::specs::Exports::after_name))]
fn after_name(
    alloc: Global,
    draft: &mut Draft,
    item: Exp,
    token: Token<'_>,
) -> Result<Place, Fail<DefKind>>
    requires whole { WholeDraft draft.old }
    requires item { WholeExport item }
    ensures value { Gives (reading draft.new) if_said result (after_name draft.old item (lexeme_of token.entry)) }
    ensures whole { IfOk result (λ p. WholeReading (reading draft.new p)) }
{
    if token.is_equals() {
        Ok(Place::Internal { item })
    } else {
        after_internal(alloc, draft, item, token)
    }
}

/// After a part of an item of EXPORTS: the parts that may follow, then the next item.
#[tactic(auto, unfolding(def_model::specs::Exports::export))]
pub fn export(
    alloc: Global,
    draft: &mut Draft,
    item: Exp,
    part: Part,
    token: Token<'_>,
) -> Result<Place, Fail<DefKind>>
    requires whole { WholeDraft draft.old }
    requires item { WholeExport item }
    ensures value { Gives (reading draft.new) if_said result (export draft.old item part (lexeme_of token.entry)) }
    ensures whole { IfOk result (λ p. WholeReading (reading draft.new p)) }
{
    match part {
        Part::Name => after_name(alloc, draft, item, token),
        Part::Internal => after_internal(alloc, draft, item, token),
        Part::Ordinal => after_ordinal(alloc, draft, item, token),
        Part::Resident => after_resident(alloc, draft, item, token),
        Part::NoData => after_nodata(alloc, draft, item, token),
    }
}

/// After `=` in an item of EXPORTS.
#[tactic(auto, unfolding(def_model::specs::Exports::internal))]
pub fn internal(alloc: Global, mut item: Exp, token: Token<'_>) -> Result<Place, Fail<DefKind>>
    requires item { WholeExport item }
    ensures value { (d : Draft) → Gives (reading d) if_said result (internal d item (lexeme_of token.entry)) }
    ensures whole { (d : Draft) → WholeDraft d → IfOk result (λ p. WholeReading (reading d p)) }
{
    match token.name() {
        Some(bytes) => {
            item.internal = name_of(alloc, bytes)?;
            let part = Part::Internal;
            Ok(Place::Export { item, part })
        }
        None => Err(Fail::Said(DefKind::Expected)),
    }
}

/// After `@` in an item of EXPORTS.
#[tactic(auto, unfolding(def_model::specs::Exports::ordinal))]
pub fn ordinal(mut item: Exp, token: Token<'_>) -> Result<Place, Fail<DefKind>>
    requires item { WholeExport item }
    ensures value { (d : Draft) → Gives (reading d) if_said result (ordinal d item (lexeme_of token.entry)) }
    ensures whole { (d : Draft) → WholeDraft d → IfOk result (λ p. WholeReading (reading d p)) }
{
    match token.number() {
        Some(value) => {
            item.ordinal = Some(within(1, 65_535, value)? as u16);
            let part = Part::Ordinal;
            Ok(Place::Export { item, part })
        }
        None => Err(Fail::Said(DefKind::Expected)),
    }
}
