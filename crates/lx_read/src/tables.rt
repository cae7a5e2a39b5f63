//! Tables whose fields stand one after the other, and that are read by themselves.

ghost use Rattle.std.specs.Prelude.{◌≡◌, ◌<◌, ◌^◌, drop};
ghost use Rattle.lx_read.specs.Tables.{in_file};

use crate::fields::fault;
use lx_entry::TableRefusal;
use lx_types::{Fail, LxKind, LxRefusal};

/// The bytes of a file from a place on. Past the file's end there are none.
pub fn from_place(file: &[u8], at: u64) -> &[u8]
    ensures { result.now ≡ drop at file.now }
{
    if at < file.len() as u64 {
        &file[at as usize..]
    } else {
        &file[file.len()..]
    }
}

/// What is wrong in the file where a table that stands at a place is not read: a field that passes
/// the end, or else a fault of the table's kind.
pub fn in_file(kind: LxKind, at: u64, why: Fail<TableRefusal>) -> Fail<LxRefusal>
    requires { at < 2 ^ 62 }
    ensures { result ≡ in_file kind at why }
{
    match why {
        Fail::Said(refusal) => {
            let kind = if refusal.short { LxKind::Short } else { kind };
            Fail::Said(fault(kind, at + u64::from(refusal.at)))
        }
        Fail::NoMemory => Fail::NoMemory,
    }
}
