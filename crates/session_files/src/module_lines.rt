//! The module lines of a session, done in turn.
ghost use Rattle.std.specs.Prelude.{◌≡◌, IfOk, length};
ghost use Rattle.std.specs.List.{All};
ghost use Rattle.lx_model.specs.Module.{IsRead};
ghost use Rattle.session_text.specs.Writable.{IsPlainModule};
ghost use Rattle.session_files.specs.ModuleLines.{DoesLine, DoesLines, listed};

use crate::building::build;
use crate::texts::text_of;
use lx_ports::Files;
use lx_types::{Fail, Module};
use refusal_text::Refused;
use session_model::{ModLine, ModLines};
use session_read::first_kept;
use std::alloc::Global;
use tool_read::read_module;

// The module that a line gives.
fn module_given<F: Files>(
    alloc: Global,
    files: &mut F,
    line: &ModLine,
) -> Result<Module, Fail<Refused>>
    requires { IsPlainModule line.now }
    ensures done { DoesLine line.now (F.state files.old) (F.state files.new) result }
    ensures whole { IfOk result IsRead }
{
    match line {
        ModLine::Take { file } => read_module(alloc, files, text_of(file)),
        ModLine::Build {
            stem,
            def,
            files: inputs,
        } => build(alloc, files, stem, def, inputs),
    }
}

/// The modules that the lines give, in their order. After a line that is stopped none is done.
pub fn modules_given<F: Files>(
    alloc: Global,
    files: &mut F,
    lines: &ModLines,
) -> Result<Vec<Module>, Fail<Refused>>
    requires { All IsPlainModule lines.now }
    ensures done { DoesLines lines.now (F.state files.old) (F.state files.new) (listed result) }
    ensures whole { IfOk result (λ modules. All IsRead modules.items) }
    ensures count { IfOk result (λ modules. length modules.items ≡ length lines.now) }
{
    let mut modules = Vec::new(alloc);
    let mut left = lines.text();
    while let Some(cut) = first_kept::<ModLine>(alloc, left)? {
        match module_given(alloc, files, &cut.line) {
            Ok(module) => modules.push(module)?,
            Err(why) => return Err(why),
        }
        left = cut.after;
    }
    Ok(modules)
}
