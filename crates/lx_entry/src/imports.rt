//! The import module name table ("Import Module Name Table").

ghost use Rattle.std.specs.Prelude.{◌≡◌, ◌<◌, ◌^◌, length, IfOk};
ghost use Rattle.lx_types.specs.Answers.{Reads, Gives, told_as, if_said_as};
ghost use Rattle.lx_types.specs.Names.{IsName};
ghost use Rattle.lx_types.specs.declared.refusal.LxKind.TheVariants as kinds;
ghost use Rattle.lx_model.specs.NameTables.{import_name, imports_in};
ghost use Rattle.lx_entry.specs.Refusals.{refusal};

use crate::refusal::TableRefusal;
use lx_fields::Fields;
use lx_types::{Fail, Name, Names, Seq};
use std::alloc::Global;

// A name that is not empty, of at most 255 bytes.
#[tactic(auto, unfolding(lx_model::specs::NameTables::import_name))]
fn import_name<'a>(fields: &mut Fields<'a>) -> Result<&'a [u8], TableRefusal>
    ensures read { Reads (λ name. name.now) (told_as (refusal kinds.ImportTable)) result import_name
        fields.old fields.new }
    ensures short { IfOk result (λ name. IsName name.now) }
{
    let at = fields.at();
    let len = fields.byte()?;
    if len == 0 {
        return Err(TableRefusal { at, short: false });
    }
    Ok(fields.bytes(usize::from(len))?)
}

/// The names of `count` import modules, from the bytes at the table's place up to the file's end.
///
/// A refusal is `short` where a name passes the end, at the length byte or at the text, and
/// otherwise an empty name, at its length byte.
pub fn read_imports(alloc: Global, bytes: &[u8], count: u32) -> Result<Names, Fail<TableRefusal>>
    requires { length bytes.now < 2 ^ 32 }
    ensures { Gives (λ names. names) (if_said_as (refusal kinds.ImportTable)) result (imports_in count bytes.now) }
{
    let mut fields = Fields::of(bytes);
    let mut names = Seq::new(alloc);
    for _ in 0..count {
        let name = import_name(&mut fields)?;
        match Name::of(alloc, name) {
            Ok(name) => names.push(name)?,
            Err(Fail::Said(_)) => unreachable!(),
            Err(Fail::NoMemory) => return Err(Fail::NoMemory),
        }
    }
    Ok(names)
}
