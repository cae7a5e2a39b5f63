//! The line by which a refusal is told, and its status.

ghost use Rattle.std.specs.Prelude.{◌≡◌, ◌++◌, IfOk, string_bytes};
ghost use Rattle.answer_model.specs.FileLine.{file_line};
ghost use Rattle.answer_model.specs.MemoryAnswer.{unloaded_text};
ghost use Rattle.answer_model.specs.SessionRefusals.{library_text};
ghost use Rattle.refusal_text.specs.Refusals.{cause_text, said_of, said_under, shown_before, status_of};

use crate::files::fault_text;
use crate::kinds::bind_kind;
use crate::links::link_text;
use crate::refused::{Cause, Refused};
use answer_model::{READ_FAILED, REFUSED, Said, WRITE_FAILED};
use lx_model::LibraryRefusal;
use lx_types::{Bytes, NoMemory, Seq};
use memory_model::MemoryRefusal;
use std::alloc::{AllocError, Global};

/// `lx: NAME: what`
pub fn file_line(alloc: Global, name: &str, what: &[u8]) -> Result<Bytes, NoMemory>
    ensures { IfOk result (λ line. line ≡ file_line name.now what.now) }
{
    let mut line = Vec::from_slice(alloc, b"lx: ".as_slice())?;
    line.extend_from_slice(name.as_bytes())?;
    line.extend_from_slice(b": ".as_slice())?;
    line.extend_from_slice(what)?;
    line.push(b'\n')?;
    Ok(Seq::from_vec(line))
}

// What is told of modules that are no library: `TooManyModules COUNT` or `NameTwice FIRST SECOND`.
fn library_text(alloc: Global, refusal: LibraryRefusal) -> Result<String, AllocError>
    ensures { IfOk result (λ text. string_bytes text ≡ library_text refusal) }
{
    match refusal {
        LibraryRefusal::TooManyModules { count } => format!(in alloc; "TooManyModules {count}"),
        LibraryRefusal::NameTwice { first, second } => format!(in alloc;
            "NameTwice {first} {second}"
        ),
    }
}

// What is told of a module that is not loaded: the kind, and of an object without a place its module, its number and its size.
fn unloaded_text(alloc: Global, refusal: MemoryRefusal) -> Result<Vec<u8>, AllocError>
    ensures { IfOk result (λ text. text.items ≡ unloaded_text refusal) }
{
    match refusal {
        MemoryRefusal::NoModule => Vec::from_slice(alloc, b"NoModule".as_slice()),
        MemoryRefusal::NoEntry => Vec::from_slice(alloc, b"NoEntry".as_slice()),
        MemoryRefusal::ForwardLoop => Vec::from_slice(alloc, b"ForwardLoop".as_slice()),
        MemoryRefusal::Gate286 => Vec::from_slice(alloc, b"Gate286".as_slice()),
        MemoryRefusal::ArenaFull { of, object, size } => {
            Ok(format!(in alloc; "ArenaFull {of} {object} {size}")?.into_bytes())
        }
    }
}

// What is told after the name.
fn cause_text(alloc: Global, cause: &Cause) -> Result<Vec<u8>, AllocError>
    ensures { IfOk result (λ text. text.items ≡ cause_text cause.now) }
{
    match cause {
        Cause::Absent => Vec::from_slice(alloc, b"absent".as_slice()),
        Cause::TooLong => Vec::from_slice(alloc, b"too long".as_slice()),
        Cause::Unreadable => Vec::from_slice(alloc, b"read failed".as_slice()),
        Cause::Faulty { fault, .. } | Cause::FaultShown { fault, .. } => {
            Ok(fault_text(alloc, fault)?.into_bytes())
        }
        Cause::Unlinked { refusal, .. } => link_text(alloc, refusal),
        Cause::Imports { .. } => Vec::from_slice(alloc, b"NoModule".as_slice()),
        Cause::ArenaFull { object, size } => {
            Ok(format!(in alloc; "ArenaFull {object} {size}")?.into_bytes())
        }
        Cause::LibraryLong => Vec::from_slice(alloc, b"LibraryLong".as_slice()),
        Cause::Unbound(refusal) => Vec::from_slice(alloc, bind_kind(*refusal).0.as_bytes()),
        Cause::Ungathered(refusal) => Ok(library_text(alloc, *refusal)?.into_bytes()),
        Cause::Unloaded { refusal, .. } => unloaded_text(alloc, *refusal),
        Cause::Unsaved => Vec::from_slice(alloc, b"write failed".as_slice()),
    }
}

fn status_of(cause: &Cause) -> u8
    ensures { result ≡ status_of cause.now }
{
    match cause {
        Cause::Unreadable => READ_FAILED,
        Cause::Unsaved => WRITE_FAILED,
        _ => REFUSED,
    }
}

// A line after what is shown before it.
fn after_shown(alloc: Global, cause: &Cause, line: Bytes) -> Result<Bytes, AllocError>
    ensures { IfOk result (λ text. text ≡ shown_before cause.now ++ line) }
{
    match cause {
        Cause::FaultShown { shown, .. } => {
            let mut text = Vec::from_slice(alloc, shown.as_slice())?;
            text.extend_from_slice(line.as_slice())?;
            Ok(Seq::from_vec(text))
        }
        _ => Ok(line),
    }
}

impl Refused {
    /// A refusal under a name.
    pub fn of(alloc: Global, name: &str, cause: Cause) -> Result<Refused, NoMemory>
        ensures { IfOk result (λ refused. said_of refused ≡ said_under name.now cause) }
    {
        Ok(Refused {
            name: name.to_string(alloc)?,
            cause,
        })
    }

    /// The status, and the text: the line, and before it what was read of a file that is shown.
    pub fn said(&self, alloc: Global) -> Result<Said, NoMemory>
        ensures { IfOk result (λ said. said ≡ said_of self.now) }
    {
        let text = cause_text(alloc, &self.cause)?;
        let line = file_line(alloc, self.name.as_str(), &text)?;
        Ok(Said {
            status: status_of(&self.cause),
            text: after_shown(alloc, &self.cause, line)?,
        })
    }
}
