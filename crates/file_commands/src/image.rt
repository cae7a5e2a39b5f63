//! The command `image`: what an object file means at a base.
ghost use Rattle.std.specs.Prelude.{◌≡◌, ◌^◌, IfOk, codes, nat_lt};
ghost use Rattle.obj_types.specs.Definition.{IsBase};
ghost use Rattle.obj_types.specs.Input.{WholeInput, counted};
ghost use Rattle.obj_types.specs.Whole.{WholeModule};
ghost use Rattle.link_model.specs.OneSegment.{alone};
ghost use Rattle.answer_model.specs.ImageAnswer.{NAME, ShowsObject};
ghost use Rattle.answer_model.specs.Outcome.{says_only};
ghost use Rattle.answer_model.specs.Words as words;
ghost use Rattle.file_commands.specs.Doing.{Does};
ghost use Rattle.file_commands.specs.Refusals.{said_in};

use crate::refusals::{in_full, unshown};
use crate::text::memory_text;
use crate::told::Told;
use image_pages::memory;
use lx_ports::Files;
use lx_types::{Name, NoMemory, Seq};
use obj_types::{DefFile, LinkInput, ModKind, ObjModule};
use refusal_text::{LinkFile, LinkFiles};
use std::alloc::Global;
use tool_read::read_object;

/// The name of the module that `image` links, and of its refusals.
const MODULE: &str = "IMAGE";

// Whether the number of the module, its externals and its imports has 32 bits.
fn is_counted(object: &ObjModule) -> bool
    ensures { result ≡ nat_lt (counted object.now) (2 ^ 32) }
{
    let externals = object.exts.as_slice().len();
    let imports = object.imports.as_slice().len();
    match externals.checked_add(imports) {
        Some(count) => count < u32::MAX as usize,
        None => false,
    }
}

/// The object module alone, as the library IMAGE from a base. There is no memory for one whose items are more than an
/// input may have.
fn input_of(alloc: Global, object: ObjModule, base: u32) -> Result<LinkInput, NoMemory>
    requires object { WholeModule object }
    requires base { IsBase base }
    ensures is { IfOk result (λ input. input ≡ alone object NAME base) }
    ensures whole { IfOk result WholeInput }
{
    if !is_counted(&object) {
        return Err(NoMemory);
    }
    let mut objects = Seq::new(alloc);
    objects.push(object)?;
    Ok(LinkInput {
        objects,
        libs: Seq::new(alloc),
        def: DefFile::empty(alloc, ModKind::Library, Some(base)),
        stem: Name::of_short(alloc, MODULE.as_bytes())?,
    })
}

// The input with its one file.
fn files_of(alloc: Global, name: &str, input: LinkInput) -> Result<LinkFiles, NoMemory>
    ensures { IfOk result (λ files. files.input ≡ input) }
{
    let mut files = Vec::new(alloc);
    files.push(LinkFile {
        name: name.to_string(alloc)?,
        library: None,
    })?;
    Ok(LinkFiles { input, files })
}

// What is said of the object module of a file, alone at a base.
fn shown(alloc: Global, name: &str, object: ObjModule, base: u32) -> Result<Told, NoMemory>
    requires object { WholeModule object }
    requires base { IsBase base }
    ensures { IfOk result (λ told. ShowsObject base object (says_only told.said)) }
{
    let mut input = input_of(alloc, object, base)?;
    match memory(alloc, &mut input) {
        Ok(rows) => Ok(Told::done(memory_text(alloc, &rows)?)),
        Err(why) => match files_of(alloc, name, input) {
            Ok(files) => unshown(alloc, MODULE, why, files),
            Err(NoMemory) => Err(NoMemory),
        },
    }
}

/// Shows the bytes of an object file's objects in memory, where it is linked alone from the base.
pub fn image<F: Files>(
    alloc: Global,
    files: &mut F,
    object: &str,
    base: u32,
) -> Result<Told, NoMemory>
    requires { IsBase base }
    ensures { Does (words.image object.now base) (F.state files.old) (F.state files.new) (said_in result) }
{
    match read_object(alloc, files, object) {
        Ok(module) => shown(alloc, object, module, base),
        Err(why) => in_full(alloc, why),
    }
}
