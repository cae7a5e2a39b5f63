//! The fixups of a page's records.

ghost use Rattle.std.specs.Prelude.{◌≡◌, ◌<◌, ◌≤◌, ◌+◌, ◌^◌, length, IfOk};
ghost use Rattle.lx_types.specs.Parts.{span};
ghost use Rattle.lx_fixrec.specs.Left.{left_in};
ghost use Rattle.dump_core.specs.Entries.{fixes_left};

use lx_fixrec::records;
use lx_types::{Fix, Module, NoMemory, Seq};
use std::alloc::Global;

// The fixups of records that stand at a place of a file, up to a record that has a fault.
fn fixes_in(alloc: Global, bytes: &[u8], at: u32) -> Result<Seq<Fix>, NoMemory>
    requires { at + length bytes.now < 2 ^ 32 }
    ensures { IfOk result (λ fixes. fixes ≡ fixes_left (left_in at bytes.now)) }
{
    let mut fixes = Vec::new(alloc);
    let mut sources = records(bytes, at);
    while let Some(source) = sources.next() {
        if let Ok(fix) = source {
            fixes.push(fix)?;
        }
    }
    Ok(Seq::from_vec(fixes))
}

/// The fixups of the records that stand from one place of a module's file up to another.
pub(crate) fn fixes_between(
    alloc: Global,
    m: &Module,
    from: u32,
    to: u32,
) -> Result<Seq<Fix>, NoMemory>
    requires order { from ≤ to }
    requires within { to ≤ length m.now.file }
    ensures { IfOk result (λ fixes. fixes ≡ fixes_left (left_in from (span m.now.file from to))) }
{
    fixes_in(alloc, &m.file()[from as usize..to as usize], from)
}
