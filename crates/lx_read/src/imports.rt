//! The import module name table ("Import Module Name Table").

ghost use Rattle.std.specs.Prelude.{◌≡◌, []};
ghost use Rattle.lx_model.specs.Reading.{value_or};
ghost use Rattle.lx_model.specs.NameTables.{import_names, imports_fault};
ghost use Rattle.lx_read.specs.Headers.{IsHeaderOf};
ghost use Rattle.lx_types.specs.Answers.{if_said};
ghost use Rattle.lx_model.specs.Judging.{Judges};

use crate::header::Header;
use crate::tables::{from_place, in_file};
use lx_types::{Fail, LxKind, LxRefusal, Names};
use std::alloc::Global;

/// The names of the import modules. An empty one is `ImportTable` at its length byte, and a field
/// that passes the file's end is `Short`.
pub fn read_imports(alloc: Global, file: &[u8], header: &Header) -> Result<Names, Fail<LxRefusal>>
    requires { IsHeaderOf file.now header.now }
    ensures { Judges if_said result (value_or [] (import_names file.now)) (imports_fault file.now) }
{
    let at = header.import_modules;
    match lx_entry::read_imports(alloc, from_place(file, at), header.imports) {
        Ok(names) => Ok(names),
        Err(why) => Err(in_file(LxKind::ImportTable, at, why)),
    }
}
