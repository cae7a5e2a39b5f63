//! The text of the session.

ghost use Rattle.std.specs.Prelude.{◌≡◌, ◌≤◌, ◌++◌, IfOk, OnOk, map};
ghost use Rattle.std.specs.List.{flat_map};
ghost use Rattle.session_model.specs.Spelling.{module_line, session_bytes};
ghost use Rattle.gen_model.specs.Sessions as sessions;

use crate::scripts::session_scripts;
use lx_types::{Bytes, NoMemory, Seq};
use session_model::{FailingLines, ModLines, Session};
use session_text::write_session;
use std::alloc::{AllocError, Global};

// The line that builds module `k`. It is written here: a file's name may be longer than those that a session can have.
fn push_build_line(alloc: Global, out: &mut Vec<u8>, prefix: &str, k: u32) -> Result<(), AllocError>
    ensures { OnOk result (out.new.items ≡ out.old.items ++ module_line (sessions.build_line prefix.now k)) }
{
    let line = format!(in alloc; "build G{k} {prefix}{k}.def {prefix}{k}.obj\n")?;
    out.extend_from_slice(line.as_bytes())
}

fn push_build_lines(
    alloc: Global,
    out: &mut Vec<u8>,
    prefix: &str,
    count: u32,
) -> Result<(), AllocError>
    requires { count ≤ 64 }
    ensures { OnOk result (out.new.items ≡ out.old.items ++ flat_map module_line (map (sessions.build_line prefix.now) (sessions.numbers count))) }
{
    for before in 0..count {
        push_build_line(alloc, out, prefix, before + 1)?;
    }
    Ok(())
}

/// The session of so many modules: a line that builds each, and four processes that load the last module, touch both pages of
/// each module and read its first 16 bytes, and give the last up. Where the prefix has bytes that a session's words can't have,
/// or is too long for one, the session is none that can be read.
#[tactic(auto, unfolding(gen_model::specs::Sessions::gen_session, session_model::specs::Spelling::session_bytes))]
pub fn session_text(alloc: Global, count: u32, prefix: &str) -> Result<Bytes, NoMemory>
    requires { count ≤ 64 }
    ensures { IfOk result (λ text. text ≡ session_bytes (sessions.gen_session count prefix.now)) }
{
    let scripts = Session {
        modules: ModLines::new(alloc),
        failing: FailingLines::new(alloc),
        scripts: session_scripts(alloc, count)?,
    };
    let mut text = Vec::new(alloc);
    push_build_lines(alloc, &mut text, prefix, count)?;
    text.extend_from_slice(write_session(alloc, &scripts)?.as_slice())?;
    Ok(Seq::from_vec(text))
}
