//! Object files and libraries.
ghost use Rattle.std.specs.Prelude.{◌≡◌, ◌≤◌, IfOk, length};
ghost use Rattle.std.specs.List.{All};
ghost use Rattle.obj_types.specs.Whole.{WholeModule};
ghost use Rattle.lx_ports.specs.Calls.{load_answer};
ghost use Rattle.answer_model.specs.Loading.{file_limit};
ghost use Rattle.answer_model.specs.Items.{form_of, is_library, library, library_form, object, object_file, object_form, object_or_library};
ghost use Rattle.tool_read.specs.Readings.{ReadsForm, ReadsLoad, WholeInputFile, input_item};

use crate::lines::told;
use crate::loads::opened;
use lx_ports::LoadFault;
use lx_types::{Fail, Seq};
use obj_types::ObjModule;
use omf_files::{LIBRARY_HEADER, read_library, read_object};
use omf_model::meaning_is_whole;
use refusal_text::{FileFault, Refused};
use std::alloc::Global;

/// What a file gives to a link.
#[derive(Drop)]
pub enum Input {
    Object(ObjModule),
    Library(Seq<ObjModule>),
}

fn object(alloc: Global, bytes: &[u8]) -> Result<ObjModule, Fail<FileFault>>
    ensures read { ReadsForm object object_form bytes.now result }
    ensures whole { IfOk result WholeModule }
{
    meaning_is_whole();
    match read_object(alloc, bytes) {
        Ok(module) => Ok(module),
        Err(Fail::Said(refusal)) => Err(Fail::Said(FileFault::Object(refusal))),
        Err(Fail::NoMemory) => Err(Fail::NoMemory),
    }
}

fn library(alloc: Global, bytes: &[u8]) -> Result<Seq<ObjModule>, Fail<FileFault>>
    ensures read { ReadsForm library library_form bytes.now result }
    ensures whole { IfOk result (All WholeModule) }
{
    meaning_is_whole();
    match read_library(alloc, bytes) {
        Ok(modules) => Ok(modules),
        Err(Fail::Said(refusal)) => Err(Fail::Said(FileFault::Object(refusal))),
        Err(Fail::NoMemory) => Err(Fail::NoMemory),
    }
}

fn is_library(bytes: &[u8]) -> bool
    ensures { result ≡ is_library bytes.now }
{
    match bytes {
        [first, ..] => *first == LIBRARY_HEADER,
        [] => false,
    }
}

fn input_in(alloc: Global, bytes: &[u8]) -> Result<Input, Fail<FileFault>>
    ensures read { ReadsForm input_item (form_of object_or_library bytes.now) bytes.now result }
    ensures whole { IfOk result WholeInputFile }
{
    if is_library(bytes) {
        match library(alloc, bytes) {
            Ok(modules) => Ok(Input::Library(modules)),
            Err(why) => Err(why),
        }
    } else {
        match object(alloc, bytes) {
            Ok(module) => Ok(Input::Object(module)),
            Err(why) => Err(why),
        }
    }
}

/// The object module of a file, whatever its first byte is.
pub fn read_object_file(
    alloc: Global,
    name: &str,
    loaded: Result<Vec<u8>, LoadFault>,
) -> Result<ObjModule, Fail<Refused>>
    requires { IfOk loaded (λ bytes. length bytes.items ≤ file_limit) }
    ensures read { ReadsLoad object object_file name.now (load_answer loaded) result }
    ensures whole { IfOk result WholeModule }
{
    match opened(alloc, name, loaded) {
        Ok(bytes) => match object(alloc, &bytes) {
            Ok(module) => Ok(module),
            Err(why) => Err(told(alloc, name, bytes, why)),
        },
        Err(why) => Err(why),
    }
}

/// What a file gives to a link: the modules of a library, where its first byte is F0h, else an object module.
pub fn read_input(
    alloc: Global,
    name: &str,
    loaded: Result<Vec<u8>, LoadFault>,
) -> Result<Input, Fail<Refused>>
    requires { IfOk loaded (λ bytes. length bytes.items ≤ file_limit) }
    ensures read { ReadsLoad input_item object_or_library name.now (load_answer loaded) result }
    ensures whole { IfOk result WholeInputFile }
{
    match opened(alloc, name, loaded) {
        Ok(bytes) => match input_in(alloc, &bytes) {
            Ok(read) => Ok(read),
            Err(why) => Err(told(alloc, name, bytes, why)),
        },
        Err(why) => Err(why),
    }
}
