//! The files of `memory`, loaded and read in turn.
ghost use Rattle.std.specs.Prelude.{◌≡◌, IfOk, map, string_bytes};
ghost use Rattle.std.specs.List.{All};
ghost use Rattle.lx_model.specs.Module.{IsRead};
ghost use Rattle.answer_model.specs.AskedFiles.{asked_modules};
ghost use Rattle.answer_model.specs.Items.{linked};
ghost use Rattle.tool_read.specs.Steps.{ReadsInTurn};

use crate::sessions::read_module;
use lx_ports::Files;
use lx_types::{Fail, Module};
use refusal_text::Refused;
use std::alloc::Global;

/// The modules in the files of these names, which are loaded and read in turn, whatever their first bytes are.
pub fn read_modules<F: Files>(
    alloc: Global,
    files: &mut F,
    names: &[String],
) -> Result<Vec<Module>, Fail<Refused>>
    ensures read { ReadsInTurn (λ read items. items ≡ map linked read.items) (asked_modules (map string_bytes names.now))
        (F.state files.old) (F.state files.new) result }
    ensures whole { IfOk result (λ read. All IsRead read.items) }
{
    let mut read = Vec::new(alloc);
    for name in names {
        match read_module(alloc, files, name) {
            Ok(next) => read.push(next)?,
            Err(why) => return Err(why),
        }
    }
    Ok(read)
}
