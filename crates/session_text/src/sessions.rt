//! A session, written.

ghost use Rattle.std.specs.Prelude.{◌≡◌, ◌++◌, OnOk, IfOk};
ghost use Rattle.std.specs.List.{flat_map};
ghost use Rattle.session_model.specs.Sessions.{Ses};
ghost use Rattle.line_words.specs.Words.{spaced};
ghost use Rattle.session_model.specs.Spelling.{module_line, failing_line, command_line, script_lines, session_bytes};
ghost use Rattle.session_text.specs.Writable.{IsWritable};

use crate::commands::push_command;
use line_words::{Word, push_joined, push_line, push_spaced};
use load_model::Command;
use lx_types::{Bytes, NoMemory, Seq};
use session_model::{FailingLine, FailingLines, ModLine, ModLines, Script, Session, Words};
use session_read::{first_kept, first_word};
use std::alloc::{AllocError, Global};

fn push_names(out: &mut Vec<u8>, names: &Words) -> Result<(), AllocError>
    ensures { OnOk result (out.new.items ≡ out.old.items ++ spaced names.now) }
{
    let mut left = names.text();
    while let Some(cut) = first_word(left) {
        push_spaced(out, &[Word::Text(cut.word)])?;
        left = cut.after;
    }
    Ok(())
}

fn push_module(out: &mut Vec<u8>, line: &ModLine) -> Result<(), AllocError>
    ensures { OnOk result (out.new.items ≡ out.old.items ++ module_line line.now) }
{
    match line {
        ModLine::Take { file } => {
            push_line(out, &[Word::Text(b"take"), Word::Text(file.bytes())])
        }
        ModLine::Build { stem, def, files } => {
            let stem = Word::Text(stem.bytes());
            let def = Word::Text(def.bytes());
            push_joined(out, &[Word::Text(b"build"), stem, def])?;
            push_names(out, files)?;
            out.push(b'\n')?;
            Ok(())
        }
    }
}

fn push_modules(alloc: Global, out: &mut Vec<u8>, modules: &ModLines) -> Result<(), NoMemory>
    ensures { OnOk result (out.new.items ≡ out.old.items ++ flat_map module_line modules.now) }
{
    let mut left = modules.text();
    while let Some(cut) = first_kept::<ModLine>(alloc, left)? {
        push_module(out, &cut.line)?;
        left = cut.after;
    }
    Ok(())
}

fn push_failure(out: &mut Vec<u8>, line: &FailingLine) -> Result<(), AllocError>
    ensures { OnOk result (out.new.items ≡ out.old.items ++ failing_line line.now) }
{
    let pid = Word::Count(u64::from(line.pid));
    let module = Word::Text(line.module.bytes());
    push_line(out, &[Word::Text(b"failing"), module, pid])
}

fn push_failing(alloc: Global, out: &mut Vec<u8>, failing: &FailingLines) -> Result<(), NoMemory>
    ensures { OnOk result (out.new.items ≡ out.old.items ++ flat_map failing_line failing.now) }
{
    let mut left = failing.text();
    while let Some(cut) = first_kept::<FailingLine>(alloc, left)? {
        push_failure(out, &cut.line)?;
        left = cut.after;
    }
    Ok(())
}

fn push_commands(out: &mut Vec<u8>, commands: &[Command]) -> Result<(), AllocError>
    ensures { OnOk result (out.new.items ≡ out.old.items ++ flat_map command_line commands.now) }
{
    for command in commands {
        push_command(out, command)?;
        out.push(b'\n')?;
    }
    Ok(())
}

fn push_scripts(out: &mut Vec<u8>, scripts: &[Script]) -> Result<(), AllocError>
    ensures { OnOk result (out.new.items ≡ out.old.items ++ flat_map script_lines scripts.now) }
{
    for script in scripts {
        let pid = Word::Count(u64::from(script.pid));
        push_line(out, &[Word::Text(b"process"), pid])?;
        push_commands(out, script.commands.as_slice())?;
    }
    Ok(())
}

/// Writes a session, in time linear in the text: its modules, then what fails, then its scripts, a line each, with
/// numbers in decimal. What is written of a session that was read is read as that session again.
pub fn write_session(alloc: Global, session: &Session) -> Result<Bytes, NoMemory>
    ensures text { IfOk result (λ text. text ≡ session_bytes session.now) }
    ensures again { IfOk result (λ text. IsWritable session.now → Ses text session.now) }
{
    let mut out = Vec::new(alloc);
    push_modules(alloc, &mut out, &session.modules)?;
    push_failing(alloc, &mut out, &session.failing)?;
    push_scripts(&mut out, session.scripts.as_slice())?;
    Ok(Seq::from_vec(out))
}
