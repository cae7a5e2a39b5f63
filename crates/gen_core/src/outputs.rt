//! The files that are made, before any is saved.

ghost use Rattle.std.specs.Prelude.{ℕ, ◌≤◌, List, IfOk, string_bytes};
ghost use Rattle.omf_model.specs.Object.{Obj};
ghost use Rattle.session_model.specs.Spelling.{session_bytes};
ghost use Rattle.gen_model.specs.Modules as modules;
ghost use Rattle.gen_model.specs.Modules.{gen_object};
ghost use Rattle.gen_model.specs.Sessions as names;
ghost use Rattle.gen_core.specs.Generated.{AreOutputs, IsOutput};

use crate::modules::definition_text;
use crate::names::{definition_name, object_name, session_name};
use crate::objects::object_module;
use crate::sessions::session_text;
use gen_laws::objects_are_writable;
use lx_types::{Bytes, NoMemory, Seq};
use omf_write::object;
use std::alloc::Global;
use tool_read::file_line;

/// A file, and the line that is said where it is not saved.
#[derive(Drop)]
pub struct Output {
    pub name: String,
    pub bytes: Bytes,
    pub failed: Bytes,
}

impl Output {
    fn of(alloc: Global, name: String, bytes: Bytes) -> Result<Output, NoMemory>
        ensures { IfOk result (IsOutput (string_bytes name) bytes) }
    {
        let failed = file_line(alloc, &name, b"write failed".as_slice())?;
        Ok(Output {
            name,
            bytes,
            failed,
        })
    }
}

fn object_file(alloc: Global, prefix: &str, k: u32) -> Result<Output, NoMemory>
    requires first { 1 ≤ k }
    requires last { k ≤ 64 }
    ensures { IfOk result (λ output. (bytes : List ℕ) × IsOutput (names.object_name prefix.now k) bytes output × Obj bytes (gen_object k)) }
{
    objects_are_writable();
    let module = object_module(alloc, k)?;
    let name = object_name(alloc, prefix, k)?;
    Output::of(alloc, name, Seq::from_vec(object(alloc, &module)?))
}

fn definition_file(alloc: Global, prefix: &str, k: u32) -> Result<Output, NoMemory>
    ensures { IfOk result (IsOutput (names.definition_name prefix.now k) (modules.definition_text k)) }
{
    let name = definition_name(alloc, prefix, k)?;
    Output::of(alloc, name, definition_text(alloc, k)?)
}

fn session_file(alloc: Global, prefix: &str, count: u32) -> Result<Output, NoMemory>
    requires { count ≤ 64 }
    ensures { IfOk result (IsOutput (names.session_name prefix.now) (session_bytes (names.gen_session count prefix.now))) }
{
    let name = session_name(alloc, prefix)?;
    Output::of(alloc, name, session_text(alloc, count, prefix)?)
}

/// The files of so many modules, in the order in which they are saved: for each its object file and its definition file, and
/// after them the session.
pub fn outputs(alloc: Global, count: u32, prefix: &str) -> Result<Vec<Output>, NoMemory>
    requires { count ≤ 64 }
    ensures { IfOk result (λ outputs. AreOutputs (record { count = count; prefix = prefix.now }) outputs.items) }
{
    let mut outputs = Vec::new(alloc);
    for before in 0..count {
        outputs.push(object_file(alloc, prefix, before + 1)?)?;
        outputs.push(definition_file(alloc, prefix, before + 1)?)?;
    }
    outputs.push(session_file(alloc, prefix, count)?)?;
    Ok(outputs)
}
