//! Files that tell what a module exports.
ghost use Rattle.std.specs.Prelude.{◌≡◌, ◌≤◌, ◌<◌, ◌^◌, IfOk, length};
ghost use Rattle.lx_model.specs.Module.{IsRead};
ghost use Rattle.lx_ports.specs.Calls.{load_answer};
ghost use Rattle.answer_model.specs.Loading.{file_limit};
ghost use Rattle.answer_model.specs.Items.{form_of, is_module, linked, module_file, module_form, module_or_definition};
ghost use Rattle.tool_read.specs.Readings.{ReadsLoad, WholeExporter, exporter_item, ReadsOwned};

use crate::definitions::definition;
use crate::lines::told;
use crate::loads::opened;
use lx_ports::LoadFault;
use lx_read::read_module;
use lx_types::{Fail, Module};
use obj_types::DefFile;
use refusal_text::{FileFault, Refused};
use std::alloc::Global;

/// What a file gives to an import library.
#[derive(Drop)]
pub enum Exporter {
    Definition(DefFile),
    Module(Module),
}

/// The bytes of a file that is not what it was read as.
#[derive(Drop)]
pub struct Unread {
    pub why: Fail<FileFault>,
    pub bytes: Vec<u8>,
}

fn linked(alloc: Global, bytes: Vec<u8>) -> Result<Module, Unread>
    requires { length bytes.items < 2 ^ 32 }
    ensures read { ReadsOwned linked module_form bytes.items result }
    ensures whole { IfOk result IsRead }
{
    match read_module(alloc, bytes) {
        Ok(module) => Ok(module),
        Err(unread) => match unread.why {
            Fail::Said(refusal) => Err(Unread {
                why: Fail::Said(FileFault::Module(refusal)),
                bytes: unread.file,
            }),
            Fail::NoMemory => Err(Unread {
                why: Fail::NoMemory,
                bytes: unread.file,
            }),
        },
    }
}

/// Whether the bytes begin with `LX`, or with the `MZ` of a program for DOS.
fn is_module(bytes: &[u8]) -> bool
    ensures { result ≡ is_module bytes.now }
{
    match bytes {
        [first, second, ..] => {
            *first == b'L' && *second == b'X' || *first == b'M' && *second == b'Z'
        }
        _ => false,
    }
}

fn exporter_in(alloc: Global, bytes: Vec<u8>) -> Result<Exporter, Unread>
    requires { length bytes.items < 2 ^ 32 }
    ensures read { ReadsOwned exporter_item (form_of module_or_definition bytes.items) bytes.items result }
    ensures whole { IfOk result WholeExporter }
{
    if is_module(&bytes) {
        match linked(alloc, bytes) {
            Ok(module) => Ok(Exporter::Module(module)),
            Err(why) => Err(why),
        }
    } else {
        match definition(alloc, &bytes) {
            Ok(file) => Ok(Exporter::Definition(file)),
            Err(why) => Err(Unread { why, bytes }),
        }
    }
}

/// What a file gives to an import library: a module, where it begins with `LX` or `MZ`, else a definition file.
pub fn read_exporter(
    alloc: Global,
    name: &str,
    loaded: Result<Vec<u8>, LoadFault>,
) -> Result<Exporter, Fail<Refused>>
    requires { IfOk loaded (λ bytes. length bytes.items ≤ file_limit) }
    ensures read { ReadsLoad exporter_item module_or_definition name.now (load_answer loaded) result }
    ensures whole { IfOk result WholeExporter }
{
    match opened(alloc, name, loaded) {
        Ok(bytes) => match exporter_in(alloc, bytes) {
            Ok(read) => Ok(read),
            Err(unread) => Err(told(alloc, name, unread.bytes, unread.why)),
        },
        Err(why) => Err(why),
    }
}

/// The module in a file, whatever its first bytes are.
pub fn read_module_file(
    alloc: Global,
    name: &str,
    loaded: Result<Vec<u8>, LoadFault>,
) -> Result<Module, Fail<Refused>>
    requires { IfOk loaded (λ bytes. length bytes.items ≤ file_limit) }
    ensures read { ReadsLoad linked module_file name.now (load_answer loaded) result }
    ensures whole { IfOk result IsRead }
{
    match opened(alloc, name, loaded) {
        Ok(bytes) => match linked(alloc, bytes) {
            Ok(module) => Ok(module),
            Err(unread) => Err(told(alloc, name, unread.bytes, unread.why)),
        },
        Err(why) => Err(why),
    }
}
