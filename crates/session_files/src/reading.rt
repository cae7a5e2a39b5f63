//! A session's file, and after it the files of its module lines.
ghost use Rattle.std.specs.Prelude.{ℕ, List, Result, IfOk};
ghost use Rattle.lx_ports.specs.declared.files.LoadFault.{LoadFault};
ghost use Rattle.answer_model.specs.Items.{session, session_file};
ghost use Rattle.tool_read.specs.Readings.{ReadsLoad};
ghost use Rattle.tool_read.specs.Steps.{IsOneLoad};
ghost use Rattle.session_files.specs.ModuleLines.{IsKnown};
ghost use Rattle.session_files.specs.SessionFiles.{ReadsSession};

use crate::laws::sessions_are_short;
use crate::module_lines::modules_given;
use lx_ports::Files;
use lx_types::{Fail, Module};
use refusal_text::Refused;
use session_model::Session;
use session_text::sessions_are_writable;
use std::alloc::Global;
use std::thread::Threads;
use tool_read::read_session;

/// A session that was read, and the modules that its module lines give, in their order.
#[derive(Drop)]
pub struct SessionFiles {
    pub session: Session,
    pub modules: Vec<Module>,
}

// The session that a file says.
fn session_in<R: Threads + Sync, F: Files>(
    rt: &R,
    alloc: Global,
    files: &mut F,
    file: &str,
) -> Result<Session, Fail<Refused>>
    ensures read { (answer : Result (List ℕ) LoadFault)
        × IsOneLoad file.now answer (F.state files.old) (F.state files.new)
        × ReadsLoad session session_file file.now answer result }
    ensures known { IfOk result IsKnown }
{
    sessions_are_writable();
    sessions_are_short();
    read_session(rt, alloc, files, file)
}

/// Loads and reads a session's file, and then does its module lines in turn, each whole before the next: a module that is
/// taken is loaded and read; one that is built is linked from its files, which are loaded and read in turn, and the linked
/// file is read back ("32-bit Linear eXecutable Module Format": "LX Header").
///
/// Nothing is loaded after the first file that is absent, too long, not read or at fault, or after the first line whose
/// files do not link; that is what is said.
pub fn read_session_files<R: Threads + Sync, F: Files>(
    rt: &R,
    alloc: Global,
    files: &mut F,
    file: &str,
) -> Result<SessionFiles, Fail<Refused>>
    ensures read { ReadsSession file.now (F.state files.old) (F.state files.new) result }
{
    match session_in(rt, alloc, files, file) {
        Ok(session) => match modules_given(alloc, files, &session.modules) {
            Ok(modules) => Ok(SessionFiles { session, modules }),
            Err(why) => Err(why),
        },
        Err(why) => Err(why),
    }
}
