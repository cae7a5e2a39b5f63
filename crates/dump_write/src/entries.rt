//! The lines of import modules, entries and names.

ghost use Rattle.std.specs.Prelude.{◌≡◌, ◌++◌, OnOk};
ghost use Rattle.std.specs.List.{flat_map, enumerate_from};
ghost use Rattle.session_model.specs.Text.{line_of};
ghost use Rattle.dump_model.specs.Lines.{head_words, import_line, entry_line, name_line};
ghost use Rattle.dump_model.specs.Dumps.{numbered_import_line};

use line_words::{Word, push_leading, push_line};
use lx_types::{EntryHead, FwdKey, Name};
use std::alloc::AllocError;

#[tactic(auto, unfolding(dump_model::specs::Lines::import_line))]
fn push_import(out: &mut Vec<u8>, number: u64, name: &Name) -> Result<(), AllocError>
    ensures { OnOk result (out.new.items ≡ out.old.items ++ import_line number name.now) }
{
    let name = Word::Name(name.bytes());
    push_line(out, &[Word::Text(b"import"), Word::Count(number), name])
}

/// The lines of the import modules.
pub(crate) fn push_imports(out: &mut Vec<u8>, imports: &[Name]) -> Result<(), AllocError>
    ensures { OnOk result (out.new.items ≡ out.old.items ++ flat_map numbered_import_line (enumerate_from 1 imports.now)) }
{
    let mut number = 0u64;
    for name in imports {
        number += 1;
        push_import(out, number, name)?;
    }
    Ok(())
}

fn push_head(out: &mut Vec<u8>, head: EntryHead) -> Result<(), AllocError>
    ensures { OnOk result (out.new.items ≡ out.old.items ++ line_of (head_words head)) }
{
    match head {
        EntryHead::At { object, offset } => {
            let object = Word::Number(object);
            push_line(out, &[Word::Text(b"at"), object, Word::Number(offset)])
        }
        EntryHead::Gate286 { object, offset } => {
            let object = Word::Number(object);
            push_line(out, &[Word::Text(b"gate"), object, Word::Number(offset)])
        }
        EntryHead::Forward { import, key } => {
            let import = Word::Number(import);
            let (kind, number) = match key {
                FwdKey::Ordinal(ordinal) => (Word::Text(b"ordinal"), ordinal),
                FwdKey::NameAt(at) => (Word::Text(b"name"), at),
            };
            push_line(
                out,
                &[Word::Text(b"forward"), import, kind, Word::Number(number)],
            )
        }
    }
}

fn push_entry(out: &mut Vec<u8>, entry: &(u32, EntryHead)) -> Result<(), AllocError>
    ensures { OnOk result (out.new.items ≡ out.old.items ++ entry_line entry.now) }
{
    let (ordinal, head) = *entry;
    push_leading(out, &[Word::Text(b"entry"), Word::Number(ordinal)])?;
    push_head(out, head)
}

/// The lines of the entries.
pub(crate) fn push_entries(
    out: &mut Vec<u8>,
    entries: &[(u32, EntryHead)],
) -> Result<(), AllocError>
    ensures { OnOk result (out.new.items ≡ out.old.items ++ flat_map entry_line entries.now) }
{
    for entry in entries {
        push_entry(out, entry)?;
    }
    Ok(())
}

#[tactic(auto, unfolding(dump_model::specs::Lines::name_line))]
fn push_named(out: &mut Vec<u8>, named: &(Name, u32)) -> Result<(), AllocError>
    ensures { OnOk result (out.new.items ≡ out.old.items ++ name_line named.now) }
{
    let name = Word::Name(named.0.bytes());
    push_line(out, &[Word::Text(b"name"), name, Word::Number(named.1)])
}

/// The lines of the names.
pub(crate) fn push_names(out: &mut Vec<u8>, names: &[(Name, u32)]) -> Result<(), AllocError>
    ensures { OnOk result (out.new.items ≡ out.old.items ++ flat_map name_line names.now) }
{
    for named in names {
        push_named(out, named)?;
    }
    Ok(())
}
