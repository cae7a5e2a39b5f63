//! The resident and the non-resident name table ("Resident or Non-resident Name Table Entry").

ghost use Rattle.std.specs.Prelude.{◌≡◌, []};
ghost use Rattle.lx_model.specs.Reading.{value_or};
ghost use Rattle.lx_model.specs.NameTables.{resident_names, other_names, resident_fault, others_fault};
ghost use Rattle.lx_read.specs.Headers.{IsHeaderOf};
ghost use Rattle.lx_types.specs.Answers.{if_said};
ghost use Rattle.lx_model.specs.Judging.{Judges};

use crate::fields::fault;
use crate::header::Header;
use crate::tables::{from_place, in_file};
use lx_entry::{NameTable, read_names};
use lx_types::{Fail, LxKind, LxRefusal, Seq};
use std::alloc::Global;

/// The resident name table, which has a first entry: without one it is `NameTable` at its place. A
/// field that passes the file's end is `Short`.
pub fn read_resident(
    alloc: Global,
    file: &[u8],
    header: &Header,
) -> Result<NameTable, Fail<LxRefusal>>
    requires { IsHeaderOf file.now header.now }
    ensures { Judges if_said result (value_or [] (resident_names file.now)) (resident_fault file.now) }
{
    let at = header.resident_names;
    match read_names(alloc, from_place(file, at)) {
        Ok(names) => {
            if names.as_slice().is_empty() {
                Err(Fail::Said(fault(LxKind::NameTable, at)))
            } else {
                Ok(names)
            }
        }
        Err(why) => Err(in_file(LxKind::NameTable, at, why)),
    }
}

/// The non-resident name table, within its length; a length of 0 means that there is none. A field
/// that passes that length or the file's end is `Short`.
pub fn read_others(
    alloc: Global,
    file: &[u8],
    header: &Header,
) -> Result<NameTable, Fail<LxRefusal>>
    requires { IsHeaderOf file.now header.now }
    ensures { Judges if_said result (value_or [] (other_names file.now)) (others_fault file.now) }
{
    let len = header.other_names_length as usize;
    if len == 0 {
        return Ok(Seq::new(alloc));
    }
    let at = u64::from(header.other_names);
    let rest = from_place(file, at);
    let table = rest.get(..len).unwrap_or(rest);
    match read_names(alloc, table) {
        Ok(names) => Ok(names),
        Err(why) => Err(in_file(LxKind::NameTable, at, why)),
    }
}
