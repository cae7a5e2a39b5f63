//! From a file to its module.

ghost use Rattle.std.specs.Prelude.{◌≡◌, ◌<◌, ◌^◌, ◌++◌, IfErr, IfOk, MatchResult, None, length};
ghost use Rattle.lx_types.specs.declared.fail.Fail.TheVariants as fail;
ghost use Rattle.lx_types.specs.declared.parts.Parts.{Parts};
ghost use Rattle.lx_model.specs.NameTables.{first_name, names_after_first};
ghost use Rattle.lx_model.specs.Module.{Lx, LxFault, IsRead, parts_of};
ghost use Rattle.lx_read.specs.Headers.{IsHeaderOf};
ghost use Rattle.lx_types.specs.Answers.{if_said};
ghost use Rattle.lx_model.specs.Judging.{Judges};
ghost use Rattle.lx_read.specs.Reading.{pages_in, fault_in_pages, links_in, fault_in_links, IsFoundIn, Finds};
ghost use Rattle.lx_model.specs.Judging.{IsFault};

use crate::entries::read_entries;
use crate::fields::said;
use crate::fixups::{Spans, read_spans};
use crate::header::{Header, read_header, read_start};
use crate::imports::read_imports;
use crate::names::{read_others, read_resident};
use crate::objects::read_objects;
use crate::pages::read_pages;
use crate::references::read_references;
use crate::targets::Targets;
use lx_entry::{Entries, NameTable};
use lx_types::{
    Fail, FixTarget, LxRefusal, Module, Name, Names, NoMemory, ObjHead, PageHead, Parts, Seq,
};
use std::alloc::Global;

/// A file that was not read, and why.
#[derive(Drop)]
pub struct Unread {
    pub file: Vec<u8>,
    pub why: Fail<LxRefusal>,
}

/// The tables up to the non-resident names.
#[derive(Drop)]
struct Pages {
    objects: Seq<ObjHead>,
    pages: Seq<PageHead>,
    resident: NameTable,
    others: NameTable,
}

/// The tables from the import modules on.
#[derive(Drop)]
struct Links {
    imports: Names,
    entries: Entries,
    start: Option<(u32, u32)>,
    fix_spans: Spans,
    refs: Seq<FixTarget>,
}

fn read_page_tables(alloc: Global, file: &[u8], header: &Header) -> Result<Pages, Fail<LxRefusal>>
    requires { IsHeaderOf file.now header.now }
    ensures { Judges if_said result (pages_in file.now) (fault_in_pages file.now) }
{
    let objects = read_objects(alloc, file, header)?;
    let pages = read_pages(alloc, file, header)?;
    let resident = read_resident(alloc, file, header)?;
    let others = read_others(alloc, file, header)?;
    Ok(Pages {
        objects,
        pages,
        resident,
        others,
    })
}

fn read_links(alloc: Global, file: &[u8], header: &Header) -> Result<Links, Fail<LxRefusal>>
    requires { IsHeaderOf file.now header.now }
    ensures { Judges if_said result (links_in file.now) (fault_in_links file.now) }
{
    let imports = read_imports(alloc, file, header)?;
    let entries = read_entries(alloc, file, header)?;
    let start = said(read_start(file, header))?;
    let fix_spans = read_spans(alloc, file, header)?;
    let within = Targets {
        objects: header.objects,
        imports: header.imports,
        file,
        import_procedures: header.import_procedures,
        entries: entries.as_slice(),
    };
    let refs = read_references(alloc, &within, fix_spans.as_slice())?;
    Ok(Links {
        imports,
        entries,
        start,
        fix_spans,
        refs,
    })
}

// The module's name, and the names of both tables after the first of each.
fn split_names(resident: NameTable, others: NameTable) -> Result<(Name, NameTable), NoMemory>
    requires { 0 < length resident }
    ensures name { IfOk result (λ split. split.0 ≡ first_name resident) }
    ensures names { IfOk result (λ split.
        split.1 ≡ names_after_first resident ++ names_after_first others) }
{
    let mut names = resident.into_vec();
    let mut more = others.into_vec();
    let (name, _) = names.remove(0);
    if !more.is_empty() {
        more.remove(0);
    }
    names.append(&mut more)?;
    Ok((name, Seq::from_vec(names)))
}

/// All that a file says of its module.
#[derive(Drop)]
struct Found {
    header: Header,
    name: Name,
    names: NameTable,
    objects: Seq<ObjHead>,
    pages: Seq<PageHead>,
    links: Links,
}

fn read_tables(alloc: Global, file: &[u8]) -> Result<Found, Fail<LxRefusal>>
    requires { length file.now < 2 ^ 32 }
    ensures { Finds result file.now }
{
    let header = said(read_header(file))?;
    let tables = read_page_tables(alloc, file, &header)?;
    let links = read_links(alloc, file, &header)?;
    let (name, names) = split_names(tables.resident, tables.others)?;
    Ok(Found {
        header,
        name,
        names,
        objects: tables.objects,
        pages: tables.pages,
        links,
    })
}

// It takes no memory.
fn module_of(file: Vec<u8>, found: Found) -> Module
    requires short { length file.items < 2 ^ 32 }
    requires faultless { LxFault file.items ≡ None }
    requires found { IsFoundIn file.items found }
    ensures { result ≡ parts_of file.items }
{
    let Found {
        header,
        name,
        names,
        objects,
        pages,
        links,
    } = found;
    let Links {
        imports,
        entries,
        start,
        fix_spans,
        refs,
    } = links;
    Module::of_parts(Parts {
        file: Seq::from_vec(file),
        name,
        flags: header.module_flags,
        start,
        objects,
        pages,
        fix_spans,
        imports,
        procs_at: header.import_procedures,
        entries,
        names,
        refs,
    })
}

/// Reads a module from its file, which has fewer than 2^32 bytes. Where it refuses the file, or finds
/// no memory, it hands the file back.
///
/// A refusal is the file's first fault, with its place: of the header, the object table, the page
/// table with the data of its pages, the resident and the non-resident names, the import modules,
/// the entry table, the start, the fixup page table, and the fixup records page by page.
pub fn read_module(alloc: Global, file: Vec<u8>) -> Result<Module, Unread>
    requires { length file.items < 2 ^ 32 }
    ensures read { IfOk result (λ m. Lx file.items m) }
    // The module says what its own file means.
    ensures again { IfOk result IsRead }
    ensures whole { (m : Parts) → Lx file.items m
        → MatchResult result (λ parts. parts ≡ m) (λ unread. unread.why ≡ fail.NoMemory) }
    ensures refused { IfErr result (λ unread. IsFault (if_said unread.why) (LxFault file.items)) }
    ensures handed_back { IfErr result (λ unread. unread.file.items ≡ file.items) }
{
    match read_tables(alloc, file.as_slice()) {
        Ok(found) => Ok(module_of(file, found)),
        Err(why) => Err(Unread { file, why }),
    }
}
