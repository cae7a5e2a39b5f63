//! The entry table ("Entry Table").

ghost use Rattle.std.specs.Prelude.{◌≡◌, []};
ghost use Rattle.lx_model.specs.Reading.{value_or};
ghost use Rattle.lx_model.specs.EntryTable.{entries_of, entries_fault};
ghost use Rattle.lx_read.specs.Headers.{IsHeaderOf};
ghost use Rattle.lx_types.specs.Answers.{if_said};
ghost use Rattle.lx_model.specs.Judging.{Judges};

use crate::header::Header;
use crate::tables::{from_place, in_file};
use lx_entry::Entries;
use lx_types::{Fail, LxKind, LxRefusal};
use std::alloc::Global;

/// The entries, by rising ordinals. A bundle that is not allowed is `EntryTable` at its count byte,
/// a forwarder whose module is not there at its flags byte, and a field that passes the file's end
/// is `Short`.
pub fn read_entries(alloc: Global, file: &[u8], header: &Header) -> Result<Entries, Fail<LxRefusal>>
    requires { IsHeaderOf file.now header.now }
    ensures { Judges if_said result (value_or [] (entries_of file.now)) (entries_fault file.now) }
{
    let at = header.entry_table;
    match lx_entry::read_entries(alloc, from_place(file, at), header.objects, header.imports) {
        Ok(entries) => Ok(entries),
        Err(why) => Err(in_file(LxKind::EntryTable, at, why)),
    }
}
