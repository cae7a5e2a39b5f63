//! Names and texts.

ghost use Rattle.std.specs.Prelude.{◌≢◌, [], IfOk};
ghost use Rattle.lx_types.specs.Answers.{if_said, Gives};
ghost use Rattle.def_model.specs.TokenMeaning.{name_of, text_of};

use def_model::DefKind;
use lx_types::{Fail, Name};
use std::alloc::Global;

/// A text has at most 255 bytes.
pub fn text_of(alloc: Global, bytes: &[u8]) -> Result<Name, Fail<DefKind>>
    ensures { Gives (λ x. x) if_said result (text_of bytes.now) }
{
    if bytes.len() > 255 {
        return Err(Fail::Said(DefKind::TooLong));
    }
    match Name::of(alloc, bytes) {
        Ok(name) => Ok(name),
        Err(_) => Err(Fail::NoMemory),
    }
}

/// A name has 1 to 255 bytes.
pub fn name_of(alloc: Global, bytes: &[u8]) -> Result<Name, Fail<DefKind>>
    ensures value { Gives (λ x. x) if_said result (name_of bytes.now) }
    ensures some { IfOk result (λ name. name ≢ []) }
{
    if bytes.is_empty() {
        return Err(Fail::Said(DefKind::Expected));
    }
    text_of(alloc, bytes)
}
