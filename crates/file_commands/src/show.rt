//! The command `show`: what is in a file, part by part.
ghost use Rattle.std.specs.Prelude.{◌≡◌, ◌≤◌, IfOk, Some, length};
ghost use Rattle.answer_model.specs.Loading.{file_limit};
ghost use Rattle.answer_model.specs.Outcome.{says_only};
ghost use Rattle.answer_model.specs.ShowAnswer.{ShowsFile, show_fault_text, shown_said};
ghost use Rattle.answer_model.specs.Words as words;
ghost use Rattle.refusal_text.specs.Refusals.{fault_text};
ghost use Rattle.file_commands.specs.Doing.{Does};
ghost use Rattle.file_commands.specs.Refusals.{said_in};

use crate::refusals::{in_full, refused_as};
use crate::told::Told;
use lx_ports::Files;
use lx_types::{NoMemory, Seq};
use refusal_text::{Cause, FileFault};
use show_core::Shown;
use show_model::ShowFault;
use std::alloc::Global;
use tool_read::read_bytes;

// The fault as that of a file of its kind.
fn file_fault(fault: ShowFault) -> FileFault
    ensures { fault_text result ≡ show_fault_text fault }
{
    match fault {
        ShowFault::Object(refusal) => FileFault::Object(refusal),
        ShowFault::Module(refusal) => FileFault::Module(refusal),
        ShowFault::Resources(refusal) => FileFault::Resources(refusal),
    }
}

// What is said of a file that has a fault: its text, and then the line of the fault.
fn faulty(
    alloc: Global,
    name: &str,
    bytes: Vec<u8>,
    text: Vec<u8>,
    fault: ShowFault,
) -> Result<Told, NoMemory>
    ensures { IfOk result (λ told. told.said ≡ shown_said name.now text.items (Some fault)) }
{
    let cause = Cause::FaultShown {
        shown: Seq::from_vec(text),
        fault: file_fault(fault),
        bytes,
    };
    refused_as(alloc, name, cause)
}

// What is said of a file of these bytes.
fn shown(alloc: Global, name: &str, bytes: Vec<u8>) -> Result<Told, NoMemory>
    requires { length bytes.items ≤ file_limit }
    ensures { IfOk result (λ told. ShowsFile name.now bytes.items (says_only told.said)) }
{
    let Shown { text, fault } = show_core::show(alloc, &bytes)?;
    match fault {
        None => Ok(Told::done(Seq::from_vec(text))),
        Some(fault) => faulty(alloc, name, bytes, text, fault),
    }
}

/// Tells what is in a file, a module, an object file, a library or a resource file by its first bytes: loads it, and says its parts;
/// of one that has a fault what was read before it, and then the fault, under its name. Nothing is saved.
pub fn show<F: Files>(alloc: Global, files: &mut F, file: &str) -> Result<Told, NoMemory>
    ensures { Does (words.show file.now) (F.state files.old) (F.state files.new) (said_in result) }
{
    match read_bytes(alloc, files, file) {
        Ok(bytes) => shown(alloc, file, bytes),
        Err(why) => in_full(alloc, why),
    }
}
