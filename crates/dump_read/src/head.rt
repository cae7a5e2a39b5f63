//! The line of the module.

ghost use Rattle.std.specs.Prelude.{◌≡◌, IfOk, IfSome};
ghost use Rattle.dump_model.specs.Bounds.{IsPair};
ghost use Rattle.dump_model.specs.Lines.{kind_word};
ghost use Rattle.dump_read.specs.Taken.{Reads, shut};
ghost use Rattle.dump_read.specs.Settled.{ended_by};
ghost use Rattle.dump_read.specs.Parts.{Any, IsModuleHead, IsStart, module_head_line, start_text};

use crate::reader::{BLANK, END, Reader};
use lx_types::{Name, NoMemory};
use std::alloc::Global;

/// What the first line says.
#[derive(Drop)]
pub(crate) struct ModuleHead {
    pub name: Name,
    pub library: bool,
    pub flags: u32,
    pub start: Option<(u32, u32)>,
}

fn start(reader: &mut Reader<'_>) -> Option<(u32, u32)>
    ensures { Reads start_text IsStart shut result reader.old reader.new }
{
    if reader.is_next(b"none\n") {
        reader.word(b"none\n");
        return None;
    }
    let object = reader.number(BLANK);
    let offset = reader.number(END);
    Some((object, offset))
}

// Whether the module is a library.
fn kind(reader: &mut Reader<'_>) -> bool
    ensures { Reads (ended_by 0x20 kind_word) Any shut result reader.old reader.new }
{
    let words: [&[u8]; 2] = [b"program ", b"library "];
    reader.one_of(&words) == 1
}

/// The first line.
pub(crate) fn module_head(alloc: Global, reader: &mut Reader<'_>) -> Result<ModuleHead, NoMemory>
    ensures { IfOk result (λ head. Reads module_head_line IsModuleHead shut head reader.old reader.new) }
{
    reader.word(b"module ");
    let name = reader.name(alloc, BLANK)?;
    let library = kind(reader);
    reader.word(b"flags ");
    let flags = reader.flags(BLANK);
    reader.word(b"start ");
    let start = start(reader);
    Ok(ModuleHead {
        name,
        library,
        flags,
        start,
    })
}
