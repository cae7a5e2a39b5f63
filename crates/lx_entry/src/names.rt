//! The resident and the non-resident name table ("Resident or Non-resident Name Table Entry").

ghost use Rattle.std.specs.Prelude.{◌≡◌, ◌<◌, ◌^◌, length, option_map, IfOk, IfSome};
ghost use Rattle.lx_types.specs.Answers.{Reads, Gives, told_as, if_said_as};
ghost use Rattle.lx_types.specs.Names.{IsName};
ghost use Rattle.lx_types.specs.declared.refusal.LxKind.TheVariants as kinds;
ghost use Rattle.lx_model.specs.NameTables.{name_entry, names_in};
ghost use Rattle.lx_entry.specs.Refusals.{refusal};

use crate::refusal::TableRefusal;
use lx_fields::Fields;
use lx_types::{Fail, Name, Seq};
use std::alloc::Global;

/// Names, each with its ordinal.
pub type NameTable = Seq<(Name, u32)>;

// The text of the next name, and its ordinal. At the table's end there is none.
#[tactic(auto, unfolding(lx_model::specs::NameTables::name_entry))]
fn name_text<'a>(fields: &mut Fields<'a>) -> Result<Option<(&'a [u8], u16)>, TableRefusal>
    ensures read { Reads (option_map (λ named. ((named.0.now, named.1), tt))) (told_as (refusal kinds.NameTable)) result
        (name_entry tt) fields.old fields.new }
    ensures short { IfOk result (λ found. IfSome found (λ named. IsName named.0.now)) }
{
    let len = fields.byte()?;
    if len == 0 {
        return Ok(None);
    }
    let text = fields.bytes(usize::from(len))?;
    let ordinal = fields.word()?;
    Ok(Some((text, ordinal)))
}

// The next name and its ordinal. At the table's end there is none.
fn name_entry(alloc: Global, fields: &mut Fields) -> Result<Option<(Name, u32)>, Fail<TableRefusal>>
    ensures { Reads (option_map (λ named. (named, tt))) (if_said_as (refusal kinds.NameTable)) result
        (name_entry tt) fields.old fields.new }
{
    let Some((text, ordinal)) = name_text(fields)? else {
        return Ok(None);
    };
    let name = Name::of_short(alloc, text)?;
    Ok(Some((name, u32::from(ordinal))))
}

/// The names of a name table, each with its ordinal, from the bytes at the table's place up to the
/// end of what it may take: the file's end, or that of the non-resident table's length. A length
/// of 0 ends the table; what stands after it is not looked at.
///
/// A refusal is always `short`: a length byte, a text or an ordinal passes the end.
pub fn read_names(alloc: Global, bytes: &[u8]) -> Result<NameTable, Fail<TableRefusal>>
    requires { length bytes.now < 2 ^ 32 }
    ensures { Gives (λ names. names) (if_said_as (refusal kinds.NameTable)) result (names_in bytes.now) }
{
    let mut fields = Fields::of(bytes);
    let mut names = Seq::new(alloc);
    while let Some(named) = name_entry(alloc, &mut fields)? {
        names.push(named)?;
    }
    Ok(names)
}
