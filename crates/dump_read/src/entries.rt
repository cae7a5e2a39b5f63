//! The lines of import modules, entries and names.

ghost use Rattle.std.specs.Prelude.{◌≡◌, ◌<◌, IfOk};
ghost use Rattle.dump_model.specs.Bounds.{IsEntry, IsHead, IsKey, IsListedName, IsNamed};
ghost use Rattle.dump_model.specs.Lines.{entry_line, import_line, name_line};
ghost use Rattle.dump_read.specs.Taken.{Reads, shut};
ghost use Rattle.dump_read.specs.Sequences.{AllIn, list_text};
ghost use Rattle.dump_read.specs.Lists.{entries_open, imports_open, names_open, numbered_entry, numbered_name};
ghost use Rattle.dump_model.specs.Dumps.{numbered_import_line};
ghost use Rattle.dump_read.specs.Parts.{IsHeadOf, head_rest, head_text, key_text};

use crate::reader::{BLANK, END, Reader};
use lx_types::{EntryHead, FwdKey, Name, Names, NoMemory, Seq};
use std::alloc::Global;

// The line of import module `number`.
fn import(alloc: Global, reader: &mut Reader<'_>, number: u64) -> Result<Name, NoMemory>
    ensures { IfOk result (λ name. Reads (import_line number) IsListedName shut name reader.old reader.new) }
{
    reader.word(b"import ");
    reader.count(number, BLANK);
    let name = reader.name(alloc, END)?;
    Ok(name)
}

fn key(reader: &mut Reader<'_>) -> FwdKey
    ensures { Reads key_text IsKey shut result reader.old reader.new }
{
    let words: [&[u8]; 2] = [b"ordinal ", b"name "];
    if reader.one_of(&words) == 0 {
        FwdKey::Ordinal(reader.number(END))
    } else {
        FwdKey::NameAt(reader.number(END))
    }
}

// What stands after the first word of what an entry is, which is the k-th of those that there are.
fn head_after(reader: &mut Reader<'_>, k: usize) -> EntryHead
    requires { k < 3 }
    ensures { Reads head_rest (IsHeadOf k) shut result reader.old reader.new }
{
    let number = reader.number(BLANK);
    match k {
        0 => EntryHead::At {
            object: number,
            offset: reader.number(END),
        },
        1 => EntryHead::Gate286 {
            object: number,
            offset: reader.number(END),
        },
        _ => EntryHead::Forward {
            import: number,
            key: key(reader),
        },
    }
}

fn head(reader: &mut Reader<'_>) -> EntryHead
    ensures { Reads head_text IsHead shut result reader.old reader.new }
{
    let words: [&[u8]; 3] = [b"at ", b"gate ", b"forward "];
    let k = reader.one_of(&words);
    head_after(reader, k)
}

// The line of an entry.
fn entry(reader: &mut Reader<'_>) -> (u32, EntryHead)
    ensures { Reads entry_line IsEntry shut result reader.old reader.new }
{
    reader.word(b"entry ");
    let ordinal = reader.number(BLANK);
    (ordinal, head(reader))
}

// The line of a name.
fn named(alloc: Global, reader: &mut Reader<'_>) -> Result<(Name, u32), NoMemory>
    ensures { IfOk result (λ named. Reads name_line IsNamed shut named reader.old reader.new) }
{
    reader.word(b"name ");
    let name = reader.name(alloc, BLANK)?;
    Ok((name, reader.number(END)))
}

/// The lines of the import modules.
pub(crate) fn imports(alloc: Global, reader: &mut Reader<'_>) -> Result<Names, NoMemory>
    ensures { IfOk result (λ names. Reads (list_text numbered_import_line 1) (AllIn IsListedName) imports_open names reader.old reader.new) }
{
    let mut names = Vec::new(alloc);
    let mut number = 0u64;
    while reader.is_next(b"import ") {
        number += 1;
        names.push(import(alloc, reader, number)?)?;
    }
    Ok(Seq::from_vec(names))
}

/// The lines of the entries.
pub(crate) fn entries(
    alloc: Global,
    reader: &mut Reader<'_>,
) -> Result<Seq<(u32, EntryHead)>, NoMemory>
    ensures { IfOk result (λ entries. Reads (list_text numbered_entry 1) (AllIn IsEntry) entries_open entries reader.old reader.new) }
{
    let mut entries = Vec::new(alloc);
    while reader.is_next(b"entry ") {
        entries.push(entry(reader))?;
    }
    Ok(Seq::from_vec(entries))
}

/// The lines of the names.
pub(crate) fn names(alloc: Global, reader: &mut Reader<'_>) -> Result<Seq<(Name, u32)>, NoMemory>
    ensures { IfOk result (λ names. Reads (list_text numbered_name 1) (AllIn IsNamed) names_open names reader.old reader.new) }
{
    let mut names = Vec::new(alloc);
    while reader.is_next(b"name ") {
        names.push(named(alloc, reader)?)?;
    }
    Ok(Seq::from_vec(names))
}
