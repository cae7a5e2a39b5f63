//! A file, by its first bytes.

ghost use Rattle.std.specs.Prelude.{◌≡◌, ◌==◌, ◌<◌, ◌^◌, length, slice_index, IfOk};
ghost use Rattle.show_model.specs.Kinds as kinds;
ghost use Rattle.show_model.specs.Shows.{IsShown, ShowsLibrary, ShowsModule, ShowsObject, ShowsResources};

use crate::faulty::{faulty_library_text, faulty_object_text};
use crate::libraries::{library_text, object_text};
use crate::modules::{module_text, unread_module_text};
use crate::resources::{faulty_resources_text, resources_text};
use lx_read::read_module;
use lx_types::{Fail, NoMemory};
use omf_files::{LIBRARY_HEADER, read_library, read_object};
use res_file::read_res;
use res_model::MARK;
use show_model::ShowFault;
use std::alloc::Global;

/// What is told of a file, and its first fault, if it has any.
#[derive(Drop)]
pub struct Shown {
    pub text: Vec<u8>,
    pub fault: Option<ShowFault>,
}

fn show_module(alloc: Global, bytes: &[u8]) -> Result<Shown, NoMemory>
    requires { length bytes.now < 2 ^ 32 }
    ensures { IfOk result (λ shown. ShowsModule bytes.now shown.text.items shown.fault) }
{
    let file = Vec::from_slice(alloc, bytes)?;
    match read_module(alloc, file) {
        Ok(m) => Ok(Shown {
            text: module_text(alloc, &m)?,
            fault: None,
        }),
        Err(unread) => match unread.why {
            Fail::Said(refusal) => Ok(Shown {
                text: unread_module_text(alloc, bytes)?,
                fault: Some(ShowFault::Module(refusal)),
            }),
            Fail::NoMemory => Err(NoMemory),
        },
    }
}

fn show_library(alloc: Global, bytes: &[u8]) -> Result<Shown, NoMemory>
    ensures { IfOk result (λ shown. ShowsLibrary bytes.now shown.text.items shown.fault) }
{
    match read_library(alloc, bytes) {
        Ok(modules) => Ok(Shown {
            text: library_text(alloc, bytes, modules.as_slice())?,
            fault: None,
        }),
        Err(Fail::Said(refusal)) => Ok(Shown {
            text: faulty_library_text(alloc, bytes, &refusal)?,
            fault: Some(ShowFault::Object(refusal)),
        }),
        Err(Fail::NoMemory) => Err(NoMemory),
    }
}

fn show_object(alloc: Global, bytes: &[u8]) -> Result<Shown, NoMemory>
    ensures { IfOk result (λ shown. ShowsObject bytes.now shown.text.items shown.fault) }
{
    match read_object(alloc, bytes) {
        Ok(m) => Ok(Shown {
            text: object_text(alloc, bytes, &m)?,
            fault: None,
        }),
        Err(Fail::Said(refusal)) => Ok(Shown {
            text: faulty_object_text(alloc, bytes, &refusal)?,
            fault: Some(ShowFault::Object(refusal)),
        }),
        Err(Fail::NoMemory) => Err(NoMemory),
    }
}

fn show_resources(alloc: Global, bytes: &[u8]) -> Result<Shown, NoMemory>
    requires { length bytes.now < 2 ^ 32 }
    ensures { IfOk result (λ shown. ShowsResources bytes.now shown.text.items shown.fault) }
{
    match read_res(alloc, bytes) {
        Ok(items) => Ok(Shown {
            text: resources_text(alloc, &items)?,
            fault: None,
        }),
        Err(Fail::Said(refusal)) => Ok(Shown {
            text: faulty_resources_text(alloc, bytes, refusal)?,
            fault: Some(ShowFault::Resources(refusal)),
        }),
        Err(Fail::NoMemory) => Err(NoMemory),
    }
}

fn is_module(bytes: &[u8]) -> bool
    ensures { result ≡ kinds.is_module bytes.now }
{
    match bytes {
        [first, second, ..] => {
            *first == b'L' && *second == b'X' || *first == b'M' && *second == b'Z'
        }
        _ => false,
    }
}

// Whether the first byte is this one.
fn begins_with(bytes: &[u8], byte: u8) -> bool
    requires { 0 < byte }
    ensures { result ≡ (slice_index bytes.now 0 == byte) }
{
    match bytes {
        [first, ..] => *first == byte,
        [] => false,
    }
}

/// What is told of a file: of a module, where it begins with `LX` or `MZ`, of a library, where it begins with F0h, of a resource
/// file, where it begins with FFh, else of an object file; and the first fault that the reader of such a file finds.
///
/// Without fault each list of what the file means is a part with a line for each item, under its heading and their number. Of a file
/// with a fault it tells what stands before that: the fields of a module's header, the modules and the records of an object file or
/// a library, the items of a resource file. All is printable, whatever bytes the file has.
pub fn show(alloc: Global, bytes: &[u8]) -> Result<Shown, NoMemory>
    requires { length bytes.now < 2 ^ 32 }
    ensures { IfOk result (λ shown. IsShown bytes.now shown.text.items shown.fault) }
{
    if is_module(bytes) {
        show_module(alloc, bytes)
    } else if begins_with(bytes, LIBRARY_HEADER) {
        show_library(alloc, bytes)
    } else if begins_with(bytes, MARK) {
        show_resources(alloc, bytes)
    } else {
        show_object(alloc, bytes)
    }
}
