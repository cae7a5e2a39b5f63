//! A module that a session builds: its files are loaded, read and linked, and the linked file is read back.
ghost use Rattle.std.specs.Prelude.{◌≡◌, ◌≢◌, [], IfOk};
ghost use Rattle.link_core.specs.Links.{RefusesLink};
ghost use Rattle.lx_model.specs.Module.{IsRead};
ghost use Rattle.obj_types.specs.Input.{WholeInput};
ghost use Rattle.session_model.specs.declared.sessions.ModLine.TheVariants as mod_line;
ghost use Rattle.session_text.specs.Writable.{IsPlainModule};
ghost use Rattle.session_files.specs.ModuleLines.{DoesLine, LinksInput};

use crate::texts::{text_of, texts_of};
use command_line::definition_of;
use layer_laws::{input_range, linked_files_mean_their_links};
use link_core::link;
use lx_ports::Files;
use lx_read::read_faultless;
use lx_types::{Fail, Module, Name, NoMemory};
use refusal_text::{Cause, LinkFiles, Refused};
use session_model::Words;
use std::alloc::Global;
use tool_read::read_input_with;

// The module that files are linked to.
fn linked(alloc: Global, stem: &str, mut files: LinkFiles) -> Result<Module, Fail<Refused>>
    requires { WholeInput files.input }
    ensures linked { LinksInput stem.now files.input result }
    ensures whole { IfOk result IsRead }
{
    input_range(&files.input);
    linked_files_mean_their_links();
    match link(alloc, &mut files.input) {
        Ok(file) => Ok(read_faultless(alloc, file)?),
        Err(Fail::Said(refusal)) => {
            let cause = Cause::Unlinked { refusal, files };
            Err(Fail::Said(Refused::of(alloc, stem, cause)?))
        }
        Err(Fail::NoMemory) => Err(Fail::NoMemory),
    }
}

/// The module that is linked from the files of a line. `def` names its definition file, or is `-`.
pub fn build<F: Files>(
    alloc: Global,
    files: &mut F,
    stem: &Name,
    def: &Name,
    inputs: &Words,
) -> Result<Module, Fail<Refused>>
    requires { IsPlainModule (mod_line.Build stem.now def.now inputs.now) }
    ensures done { DoesLine (mod_line.Build stem.now def.now inputs.now) (F.state files.old) (F.state files.new) result }
    ensures whole { IfOk result IsRead }
{
    let name = stem.copied(alloc)?;
    let inputs = texts_of(alloc, inputs)?;
    let definition = definition_of(text_of(def));
    match read_input_with(alloc, files, name, definition, &inputs) {
        Ok(read) => linked(alloc, text_of(stem), read),
        Err(why) => Err(why),
    }
}
