//! Places of a module.

ghost use Rattle.std.specs.Prelude.{◌≡◌, List, ℕ, option_map};
ghost use Rattle.session_model.specs.Statements.{place_in};
ghost use Rattle.session_read.specs.Places.{placed};

use crate::arguments::FourArguments;
use crate::numbers::{length_in, number_in};

/// Bytes of an object.
#[derive(Clone, Copy)]
pub(crate) struct Span {
    pub object: u32,
    pub offset: u32,
    pub len: u32,
}

/// The bytes that arguments tell, so many at most.
pub(crate) fn span_in(most: Option<u32>, args: &FourArguments<'_>) -> Option<Span>
    ensures { option_map (placed args.now.name.now) result
        ≡ place_in most args.now.name.now args.now.object.now args.now.offset.now args.now.last.now }
{
    let object = number_in(args.object)?;
    let offset = number_in(args.offset)?;
    let len = length_in(most, args.last)?;
    Some(Span {
        object,
        offset,
        len,
    })
}
