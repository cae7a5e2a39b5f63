//! Module definition files.
ghost use Rattle.std.specs.Prelude.{◌≡◌, ◌≤◌, IfOk, length};
ghost use Rattle.obj_types.specs.Definition.{WholeDef};
ghost use Rattle.lx_ports.specs.Calls.{load_answer};
ghost use Rattle.answer_model.specs.Loading.{file_limit};
ghost use Rattle.answer_model.specs.Items.{definition, definition_file, definition_form};
ghost use Rattle.tool_read.specs.Readings.{ReadsForm, ReadsLoad};

use crate::lines::told;
use crate::loads::opened;
use def_file::read_def;
use lx_ports::LoadFault;
use lx_types::Fail;
use obj_types::DefFile;
use refusal_text::{FileFault, Refused};
use std::alloc::Global;

pub fn definition(alloc: Global, bytes: &[u8]) -> Result<DefFile, Fail<FileFault>>
    ensures read { ReadsForm definition definition_form bytes.now result }
    ensures whole { IfOk result WholeDef }
{
    match read_def(alloc, bytes) {
        Ok(file) => Ok(file),
        Err(Fail::Said(refusal)) => Err(Fail::Said(FileFault::Definition(refusal))),
        Err(Fail::NoMemory) => Err(Fail::NoMemory),
    }
}

/// What a definition file says.
pub fn read_definition_file(
    alloc: Global,
    name: &str,
    loaded: Result<Vec<u8>, LoadFault>,
) -> Result<DefFile, Fail<Refused>>
    requires { IfOk loaded (λ bytes. length bytes.items ≤ file_limit) }
    ensures read { ReadsLoad definition definition_file name.now (load_answer loaded) result }
    ensures whole { IfOk result WholeDef }
{
    match opened(alloc, name, loaded) {
        Ok(bytes) => match definition(alloc, &bytes) {
            Ok(file) => Ok(file),
            Err(why) => Err(told(alloc, name, bytes, why)),
        },
        Err(why) => Err(why),
    }
}
