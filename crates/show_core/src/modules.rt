//! A module ("32-bit Linear eXecutable Module Format").

ghost use Rattle.std.specs.Prelude.{◌≡◌, ◌++◌, ◌∷◌, ◌+◌, ◌*◌, ◌<◌, ◌^◌, [], codes, length, IfOk, OnOk};
ghost use Rattle.lx_model.specs.Module.{IsRead};
ghost use Rattle.show_model.specs.Lists.{module_lists, whole_resources};
ghost use Rattle.show_model.specs.Outlines.{IsOutline, tallies};

use crate::exports::add_exports;
use crate::flags::{OBJECT_FLAG_WORDS, flag_words};
use crate::header::add_header;
use crate::imported::add_imports;
use crate::line;
use crate::other_parts::add_other_parts;
use crate::outline::{Line, Told, add, add_list};
use crate::pages::add_pages;
use crate::printing::print_outline;
use line_words::Word;
use lx_fields::{doubleword_at, header_field, table_place, word_at};
use lx_model::RESOURCE_ENTRY_LEN;
use lx_model::header_fields::{RESOURCE_COUNT, RESOURCE_TABLE};
use lx_types::{Module, NoMemory, ObjHead};
use show_model::Part;
use std::alloc::Global;

/// How many bytes an entry of the resource table has.
const ENTRY_SIZE: u64 = RESOURCE_ENTRY_LEN as u64;

impl Told<Module> for ObjHead {
    fn line<'x>(&'x self, alloc: Global, number: u64, _m: &'x Module) -> Line {
        let flags = flag_words(alloc, self.flags, &OBJECT_FLAG_WORDS)?;
        line!(alloc; Count number, Text b"base", Hex self.base, Text b"size", Number self.size, Text b"pages", Number self.count,
            Text b"flags", Hex self.flags, Text &flags)
    }
}

// What is said of the module as a whole.
fn add_summary(alloc: Global, out: &mut Vec<Part>, m: &Module) -> Result<(), NoMemory> {
    let kind: &[u8] = if m.is_library() {
        b"library"
    } else {
        b"program"
    };
    let mut lines = Vec::new(alloc);
    lines.push(line!(alloc; Text kind, Text m.name().bytes())?)?;
    lines.push(line!(alloc; Text b"file size", Count m.file().len() as u64)?)?;
    add(alloc, out, "LX module", lines)
}

// An entry of the resource table, at a place of the file.
fn resource_line(alloc: Global, file: &[u8], at: usize) -> Line
    requires { at < 2 ^ 62 }
{
    let (ty, id) = (
        u32::from(word_at(file, at)),
        u32::from(word_at(file, at + 2)),
    );
    let object = u32::from(word_at(file, at + 8));
    let (offset, len) = (doubleword_at(file, at + 10), doubleword_at(file, at + 4));
    line!(alloc; Text b"type", Number ty, Text b"identifier", Number id, Text b"object", Number object, Text b"offset", Hex offset,
        Text b"length", Number len)
}

// How many entries of the resource table lie whole in the file.
fn resource_count(file: &[u8]) -> u64
    ensures count { result ≡ whole_resources file.now }
    ensures small { result < 2 ^ 32 }
{
    let room = (file.len() as u64).saturating_sub(table_place(file, RESOURCE_TABLE));
    u64::from(header_field(file, RESOURCE_COUNT)).min(room / ENTRY_SIZE)
}

fn add_resources(alloc: Global, out: &mut Vec<Part>, m: &Module) -> Result<(), NoMemory>
    ensures { OnOk result (tallies out.new.items ≡ tallies out.old.items ++ (codes "resources", whole_resources m.now.file) ∷ []) }
{
    let file = m.file();
    let table = table_place(file, RESOURCE_TABLE) as usize;
    let mut lines = Vec::new(alloc);
    for k in 0..resource_count(file) {
        lines.push(resource_line(alloc, file, table + RESOURCE_ENTRY_LEN * k as usize)?)?;
    }
    add(alloc, out, "resources", lines)
}

fn add_objects(alloc: Global, out: &mut Vec<Part>, m: &Module) -> Result<(), NoMemory>
    ensures { OnOk result (tallies out.new.items ≡ tallies out.old.items ++ (codes "objects", length m.now.objects) ∷ []) }
{
    add_list(alloc, out, "objects", m.objects(), m)
}

fn module_parts(alloc: Global, m: &Module) -> Result<Vec<Part>, NoMemory>
    requires { IsRead m.now }
    ensures { IfOk result (λ parts. tallies parts.items ≡ module_lists m.now) }
{
    let mut out = Vec::new(alloc);
    add_objects(alloc, &mut out, m)?;
    add_pages(alloc, &mut out, m)?;
    add_imports(alloc, &mut out, m)?;
    add_exports(alloc, &mut out, m)?;
    add_resources(alloc, &mut out, m)?;
    Ok(out)
}

/// What is told of a module that was read.
pub fn module_text(alloc: Global, m: &Module) -> Result<Vec<u8>, NoMemory>
    requires { IsRead m.now }
    ensures { IfOk result (λ text. IsOutline text.items (module_lists m.now)) }
{
    let mut before = Vec::new(alloc);
    add_summary(alloc, &mut before, m)?;
    add_header(alloc, &mut before, m.file())?;
    let listed = module_parts(alloc, m)?;
    let mut after = Vec::new(alloc);
    add_other_parts(alloc, &mut after, m)?;
    Ok(print_outline(alloc, &before, &listed, &after)?)
}

/// What is told of a module with a fault: the fields of its header that lie in the file.
pub fn unread_module_text(alloc: Global, bytes: &[u8]) -> Result<Vec<u8>, NoMemory>
    ensures { IfOk result (λ text. IsOutline text.items []) }
{
    let mut before = Vec::new(alloc);
    add_header(alloc, &mut before, bytes)?;
    Ok(print_outline(alloc, &before, &[], &[])?)
}
