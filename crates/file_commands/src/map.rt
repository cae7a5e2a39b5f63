//! The command `map`: where all that a link places stands.
ghost use Rattle.std.specs.Prelude.{◌≡◌, ◌++◌, IfOk, map, option_map, string_bytes};
ghost use Rattle.obj_types.specs.Input.{WholeInput};
ghost use Rattle.answer_model.specs.LinkAnswer.{input_with};
ghost use Rattle.answer_model.specs.MapAnswer.{NAME, MapsInput};
ghost use Rattle.answer_model.specs.Outcome.{says_only};
ghost use Rattle.answer_model.specs.AskedFiles.{asked_definition, asked_inputs};
ghost use Rattle.answer_model.specs.Words as words;
ghost use Rattle.tool_read.specs.Steps.{ReadsInTurn};
ghost use Rattle.file_commands.specs.Doing.{Does};
ghost use Rattle.file_commands.specs.Refusals.{said_in};

use crate::refusals::{in_full, unlinked};
use crate::told::Told;
use lx_ports::Files;
use lx_types::{Fail, Name, NoMemory, Seq};
use map_core::map_input;
use refusal_text::{LinkFiles, Refused};
use std::alloc::Global;
use tool_read::read_input_with;

/// The name of the module where its definition file gives none, and of its refusals.
const MODULE: &str = "MAP";

// The input of the link, whose files are loaded and read in turn.
fn read_files<F: Files>(
    alloc: Global,
    files: &mut F,
    definition: Option<&str>,
    inputs: &[String],
) -> Result<LinkFiles, Fail<Refused>>
    ensures read { ReadsInTurn (λ read items. read.input ≡ input_with NAME items)
        (asked_definition (option_map (λ name. name.now) definition.entry) ++ asked_inputs (map string_bytes inputs.now))
        (F.state files.old) (F.state files.new) result }
    ensures whole { IfOk result (λ read. WholeInput read.input) }
{
    let stem = Name::of_short(alloc, MODULE.as_bytes())?;
    read_input_with(alloc, files, stem, definition, inputs)
}

// The map of an input's link, or its refusal.
fn mapped(alloc: Global, mut read: LinkFiles) -> Result<Told, NoMemory>
    requires { WholeInput read.input }
    ensures { IfOk result (λ told. MapsInput read.input (says_only told.said)) }
{
    match map_input(alloc, &mut read.input) {
        Ok(text) => Ok(Told::map(Seq::from_vec(text), read)),
        Err(why) => unlinked(alloc, MODULE, why, read),
    }
}

/// Tells where all that a link places stands: loads the files in turn, as `link` does, and says the map of what they mean, or why
/// they do not link. Nothing is saved.
pub fn show_map<F: Files>(
    alloc: Global,
    files: &mut F,
    definition: Option<&str>,
    inputs: &[String],
) -> Result<Told, NoMemory>
    ensures { Does (words.link_map (option_map (λ name. name.now) definition.entry) (map string_bytes inputs.now))
        (F.state files.old) (F.state files.new) (said_in result) }
{
    match read_files(alloc, files, definition, inputs) {
        Ok(read) => mapped(alloc, read),
        Err(why) => in_full(alloc, why),
    }
}
