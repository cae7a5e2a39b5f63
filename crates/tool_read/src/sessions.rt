//! The file of a session, and those of the modules that it takes, each loaded and read.
ghost use Rattle.std.specs.Prelude.{◌≡◌, ◌≤◌, ℕ, List, Result, IfOk, length};
ghost use Rattle.lx_model.specs.Module.{IsRead};
ghost use Rattle.lx_ports.specs.Calls.{load_answer};
ghost use Rattle.lx_ports.specs.declared.files.LoadFault.{LoadFault};
ghost use Rattle.answer_model.specs.Loading.{file_limit};
ghost use Rattle.answer_model.specs.Items.{linked, module_file, session, session_file, session_form};
ghost use Rattle.tool_read.specs.Readings.{ReadsForm, ReadsLoad};
ghost use Rattle.tool_read.specs.Steps.{IsOneLoad};

use crate::exporters::read_module_file;
use crate::lines::told;
use crate::loads::opened;
use lx_ports::{Files, LoadFault};
use lx_types::{Fail, MAX_FILE, Module};
use refusal_text::{FileFault, Refused};
use session_model::Session;
use session_read::read_session_by_threads;
use std::alloc::Global;
use std::thread::Threads;

fn session<R: Threads + Sync>(
    rt: &R,
    alloc: Global,
    bytes: &[u8],
) -> Result<Session, Fail<FileFault>>
    requires { length bytes.now ≤ file_limit }
    ensures { ReadsForm session session_form bytes.now result }
{
    match read_session_by_threads(rt, alloc, bytes) {
        Ok(session) => Ok(session),
        Err(Fail::Said(refusal)) => Err(Fail::Said(FileFault::Session(refusal))),
        Err(Fail::NoMemory) => Err(Fail::NoMemory),
    }
}

fn read_session_file<R: Threads + Sync>(
    rt: &R,
    alloc: Global,
    name: &str,
    loaded: Result<Vec<u8>, LoadFault>,
) -> Result<Session, Fail<Refused>>
    requires { IfOk loaded (λ bytes. length bytes.items ≤ file_limit) }
    ensures { ReadsLoad session session_file name.now (load_answer loaded) result }
{
    match opened(alloc, name, loaded) {
        Ok(bytes) => match session(rt, alloc, &bytes) {
            Ok(session) => Ok(session),
            Err(why) => Err(told(alloc, name, bytes, why)),
        },
        Err(why) => Err(why),
    }
}

/// The session that a file says, which is loaded. A long one is read by several threads, where they can be made.
pub fn read_session<R: Threads + Sync, F: Files>(
    rt: &R,
    alloc: Global,
    files: &mut F,
    name: &str,
) -> Result<Session, Fail<Refused>>
    ensures { (answer : Result (List ℕ) LoadFault)
        × IsOneLoad name.now answer (F.state files.old) (F.state files.new)
        × ReadsLoad session session_file name.now answer result }
{
    let loaded = files.load(alloc, name, MAX_FILE);
    read_session_file(rt, alloc, name, loaded)
}

/// The module in a file, which is loaded, whatever its first bytes are.
pub fn read_module<F: Files>(
    alloc: Global,
    files: &mut F,
    name: &str,
) -> Result<Module, Fail<Refused>>
    ensures read { (answer : Result (List ℕ) LoadFault)
        × IsOneLoad name.now answer (F.state files.old) (F.state files.new)
        × ReadsLoad linked module_file name.now answer result }
    ensures whole { IfOk result IsRead }
{
    let loaded = files.load(alloc, name, MAX_FILE);
    read_module_file(alloc, name, loaded)
}
