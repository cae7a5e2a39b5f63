//! The bytes of a file, which is loaded.
ghost use Rattle.std.specs.Prelude.{◌≤◌, ℕ, List, Result, IfOk, length};
ghost use Rattle.lx_ports.specs.Calls.{load_answer};
ghost use Rattle.lx_ports.specs.declared.files.LoadFault.{LoadFault};
ghost use Rattle.answer_model.specs.Loading.{file_limit};
ghost use Rattle.answer_model.specs.Items.{raw, raw_file};
ghost use Rattle.tool_read.specs.Readings.{ReadsLoad};
ghost use Rattle.tool_read.specs.Steps.{IsOneLoad};

use crate::loads::opened;
use lx_ports::{Files, LoadFault};
use lx_types::{Fail, MAX_FILE};
use refusal_text::Refused;
use std::alloc::Global;

fn read_raw_file(
    alloc: Global,
    name: &str,
    loaded: Result<Vec<u8>, LoadFault>,
) -> Result<Vec<u8>, Fail<Refused>>
    requires { IfOk loaded (λ bytes. length bytes.items ≤ file_limit) }
    ensures read { ReadsLoad (λ bytes. raw bytes.items) raw_file name.now (load_answer loaded) result }
    ensures short { IfOk result (λ bytes. length bytes.items ≤ file_limit) }
{
    match opened(alloc, name, loaded) {
        Ok(bytes) => Ok(bytes),
        Err(why) => Err(why),
    }
}

/// The bytes of a file, which is loaded, whatever they are.
pub fn read_bytes<F: Files>(
    alloc: Global,
    files: &mut F,
    name: &str,
) -> Result<Vec<u8>, Fail<Refused>>
    ensures read { (answer : Result (List ℕ) LoadFault)
        × IsOneLoad name.now answer (F.state files.old) (F.state files.new)
        × ReadsLoad (λ bytes. raw bytes.items) raw_file name.now answer result }
    ensures short { IfOk result (λ bytes. length bytes.items ≤ file_limit) }
{
    let loaded = files.load(alloc, name, MAX_FILE);
    read_raw_file(alloc, name, loaded)
}
