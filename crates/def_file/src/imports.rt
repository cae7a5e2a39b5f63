//! IMPORTS.

ghost use Rattle.std.specs.Prelude.{IfOk, IfSome, ◌≢◌, []};
ghost use Rattle.def_tokens.specs.Seen.{lexeme_of};
ghost use Rattle.obj_types.specs.Definition.{WholeImport};
ghost use Rattle.def_model.specs.declared.draft.Place.TheVariants as place;
ghost use Rattle.lx_types.specs.Answers.{if_said, Gives};
ghost use Rattle.def_model.specs.declared.draft.Draft.{Draft};
ghost use Rattle.def_model.specs.Draft.{at, reading};
ghost use Rattle.def_file.specs.Whole.{WholeReading, WholeDraft};
ghost use Rattle.def_model.specs.Imports.{imports, import_first, import_equals, import_module, import_by_name, import_ordinal, import_dot, with_import};

use crate::names::name_of;
use crate::numbers::within;
use crate::statements::statement;
use def_model::{DefKind, Draft, Place};
use def_tokens::Token;
use lx_types::{EntryKey, Fail, Name};
use obj_types::Imp;
use std::alloc::Global;

/// Another item of IMPORTS, or the next statement.
#[tactic(auto, unfolding(def_model::specs::Imports::imports))]
pub fn imports(alloc: Global, draft: &Draft, token: Token<'_>) -> Result<Place, Fail<DefKind>>
    requires { WholeDraft draft.now }
    ensures value { Gives (reading draft.now) if_said result (imports draft.now (lexeme_of token.entry)) }
    ensures whole { IfOk result (λ p. WholeReading (reading draft.now p)) }
{
    match token.name() {
        Some(bytes) => {
            let name = name_of(alloc, bytes)?;
            Ok(Place::Import { name })
        }
        None => statement(draft, token),
    }
}

/// After the first name of an item.
#[tactic(auto, unfolding(def_model::specs::Imports::import_first))]
pub fn import_first(name: Name, token: Token<'_>) -> Result<Place, Fail<DefKind>>
    requires name { name ≢ [] }
    ensures value { (d : Draft) → Gives (reading d) if_said result (import_first d name (lexeme_of token.entry)) }
    ensures whole { (d : Draft) → WholeDraft d → IfOk result (λ p. WholeReading (reading d p)) }
{
    if token.is_equals() {
        Ok(Place::ImportEquals { internal: name })
    } else if token.is_dot() {
        let internal = None;
        Ok(Place::ImportDot {
            internal,
            module: name,
        })
    } else {
        Err(Fail::Said(DefKind::Expected))
    }
}

/// After `=` in an item.
#[tactic(auto, unfolding(def_model::specs::Imports::import_equals))]
pub fn import_equals(
    alloc: Global,
    internal: Name,
    token: Token<'_>,
) -> Result<Place, Fail<DefKind>>
    requires internal { internal ≢ [] }
    ensures value { (d : Draft) → Gives (reading d) if_said result (import_equals d internal (lexeme_of token.entry)) }
    ensures whole { (d : Draft) → WholeDraft d → IfOk result (λ p. WholeReading (reading d p)) }
{
    match token.name() {
        Some(bytes) => {
            let module = name_of(alloc, bytes)?;
            Ok(Place::ImportModule { internal, module })
        }
        None => Err(Fail::Said(DefKind::Expected)),
    }
}

/// After the module's name of an item that has an internal name.
#[tactic(auto, unfolding(def_model::specs::Imports::import_module))]
pub fn import_module(internal: Name, from: Name, token: Token<'_>) -> Result<Place, Fail<DefKind>>
    requires internal { internal ≢ [] }
    requires from { from ≢ [] }
    ensures value { (d : Draft) → Gives (reading d) if_said result (import_module d internal from (lexeme_of token.entry)) }
    ensures whole { (d : Draft) → WholeDraft d → IfOk result (λ p. WholeReading (reading d p)) }
{
    if token.is_dot() {
        let internal = Some(internal);
        Ok(Place::ImportDot {
            internal,
            module: from,
        })
    } else {
        Err(Fail::Said(DefKind::Expected))
    }
}

#[tactic(auto, using(crate::proofs::WholeLaws::all_pushed))]
fn with_import(draft: &mut Draft, item: Imp) -> Result<Place, Fail<DefKind>>
    requires whole { WholeDraft draft.old }
    requires item { WholeImport item }
    ensures value { Gives (reading draft.new) if_said result (at (with_import draft.old item) place.Imports) }
    ensures whole { IfOk result (λ p. WholeReading (reading draft.new p)) }
{
    draft.imports.push(item)?;
    Ok(Place::Imports)
}

// An entry by name, which is the internal name too where there is none.
fn import_by_name(
    alloc: Global,
    draft: &mut Draft,
    internal: Option<Name>,
    from: Name,
    bytes: &[u8],
) -> Result<Place, Fail<DefKind>>
    requires whole { WholeDraft draft.old }
    requires internal { IfSome internal (λ n. n ≢ []) }
    requires from { from ≢ [] }
    ensures value { Gives (reading draft.new) if_said result (import_by_name draft.old internal from bytes.now) }
    ensures whole { IfOk result (λ p. WholeReading (reading draft.new p)) }
{
    let module = from;
    let entry = EntryKey::Named(name_of(alloc, bytes)?);
    match internal {
        Some(name) => with_import(
            draft,
            Imp {
                name,
                module,
                entry,
            },
        ),
        None => {
            let name = name_of(alloc, bytes)?;
            with_import(
                draft,
                Imp {
                    name,
                    module,
                    entry,
                },
            )
        }
    }
}

// An entry by ordinal, which wants an internal name.
fn import_ordinal(
    draft: &mut Draft,
    internal: Option<Name>,
    from: Name,
    value: Option<u32>,
) -> Result<Place, Fail<DefKind>>
    requires whole { WholeDraft draft.old }
    requires internal { IfSome internal (λ n. n ≢ []) }
    requires from { from ≢ [] }
    ensures value { Gives (reading draft.new) if_said result (import_ordinal draft.old internal from value) }
    ensures whole { IfOk result (λ p. WholeReading (reading draft.new p)) }
{
    match internal {
        Some(name) => {
            let entry = EntryKey::Ordinal(within(1, 65_535, value)?);
            with_import(
                draft,
                Imp {
                    name,
                    module: from,
                    entry,
                },
            )
        }
        None => Err(Fail::Said(DefKind::Expected)),
    }
}

/// After `.` in an item.
#[tactic(auto, unfolding(def_model::specs::Imports::import_dot))]
pub fn import_dot(
    alloc: Global,
    draft: &mut Draft,
    internal: Option<Name>,
    from: Name,
    token: Token<'_>,
) -> Result<Place, Fail<DefKind>>
    requires whole { WholeDraft draft.old }
    requires internal { IfSome internal (λ n. n ≢ []) }
    requires from { from ≢ [] }
    ensures value { Gives (reading draft.new) if_said result (import_dot draft.old internal from (lexeme_of token.entry)) }
    ensures whole { IfOk result (λ p. WholeReading (reading draft.new p)) }
{
    if let Some(bytes) = token.name() {
        return import_by_name(alloc, draft, internal, from, bytes);
    }
    match token.number() {
        Some(value) => import_ordinal(draft, internal, from, value),
        None => Err(Fail::Said(DefKind::Expected)),
    }
}
