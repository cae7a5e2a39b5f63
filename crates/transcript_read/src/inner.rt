//! The lines below an entry: what begins, what is called, what ends.

ghost use Rattle.std.specs.Prelude.{◌≡◌, IfOk};
ghost use Rattle.check_model.specs.Told.{IsCall, IsFresh, IsGone};
ghost use Rattle.transcript_read.specs.Words.{left_of};
ghost use Rattle.transcript_read.specs.Taken.{Tells};
ghost use Rattle.transcript_read.specs.Rows.{call_row, gone_row, new_row};

use crate::cursor::Words;
use crate::modules::ModuleNames;
use load_model::{Call, Fresh, Gone};
use lx_types::NoMemory;
use std::alloc::Global;

/// A residence that begins, with its bases.
pub(crate) fn fresh(
    alloc: Global,
    words: Words<'_>,
    names: &ModuleNames<'_>,
) -> Result<Option<Fresh>, NoMemory>
    ensures { IfOk result (λ told. Tells (new_row names.now) (IsFresh names.now) told (left_of words.entry)) }
{
    let mut words = words;
    words.known(b"");
    words.known(b"");
    words.known(b"new");
    let serial = words.count();
    let module = words.module(names);
    let bases = words.addresses(alloc)?;
    Ok(words.ending(Fresh {
        serial,
        module,
        bases,
    }))
}

/// A call of a module's start address.
pub(crate) fn call(words: Words<'_>, names: &ModuleNames<'_>) -> Option<Call>
    ensures { Tells (call_row names.now) (IsCall names.now) result (left_of words.entry) }
{
    let mut words = words;
    words.known(b"");
    words.known(b"");
    words.known(b"call");
    let kind = words.kind();
    let serial = words.count();
    let module = words.module(names);
    let address = words.address();
    words.ending(Call {
        kind,
        serial,
        module,
        address,
    })
}

/// A residence that ends.
pub(crate) fn gone(words: Words<'_>, names: &ModuleNames<'_>) -> Option<Gone>
    ensures { Tells (gone_row names.now) (IsGone names.now) result (left_of words.entry) }
{
    let mut words = words;
    words.known(b"");
    words.known(b"");
    words.known(b"gone");
    let serial = words.count();
    let module = words.module(names);
    words.ending(Gone { serial, module })
}
