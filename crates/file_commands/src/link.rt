//! The command `link`: a module from object files and libraries.
ghost use Rattle.std.specs.Prelude.{◌≡◌, IfOk, map, option_map, string_bytes};
ghost use Rattle.obj_types.specs.Input.{WholeInput};
ghost use Rattle.answer_model.specs.LinkAnswer.{counts_line};
ghost use Rattle.answer_model.specs.Words as words;
ghost use Rattle.file_commands.specs.Doing.{Does, DoesLink};
ghost use Rattle.file_commands.specs.Refusals.{said_in};

use crate::refusals::{in_full, unlinked};
use crate::saving::keep;
use crate::told::Told;
use link_core::{Linked, link_module};
use lx_ports::Files;
use lx_types::{Bytes, NoMemory, Seq, push_escaped};
use refusal_text::LinkFiles;
use std::alloc::{AllocError, Global};
use tool_read::read_link_input;

// `NAME objects O pages P sources S`
fn counts_line(alloc: Global, linked: &Linked) -> Result<Bytes, AllocError>
    ensures { IfOk result (λ line. line ≡ counts_line linked.now.name linked.now.objects linked.now.pages linked.now.sources) }
{
    let mut line = Vec::new(alloc);
    push_escaped(&mut line, linked.name.bytes())?;
    let objects = linked.objects;
    let pages = linked.pages;
    let sources = linked.sources;
    let counts = format!(in alloc; " objects {objects} pages {pages} sources {sources}\n")?;
    line.extend_from_slice(counts.as_bytes())?;
    Ok(Seq::from_vec(line))
}

fn link_input<F: Files>(
    alloc: Global,
    files: &mut F,
    out: &str,
    mut read: LinkFiles,
) -> Result<Told, NoMemory>
    requires { WholeInput read.input }
    ensures { DoesLink out.now read.input (F.state files.old) (F.state files.new) (said_in result) }
{
    match link_module(alloc, &mut read.input) {
        Ok(linked) => {
            let line = counts_line(alloc, &linked)?;
            keep(alloc, files, out, linked.file.as_slice(), line)
        }
        Err(why) => unlinked(alloc, out, why, read),
    }
}

/// Links the files to the module OUT: loads them in turn, links what they mean, saves the module, and says its name and
/// its counts.
pub fn link<F: Files>(
    alloc: Global,
    files: &mut F,
    out: &str,
    definition: Option<&str>,
    inputs: &[String],
) -> Result<Told, NoMemory>
    ensures { Does (words.link out.now (option_map (λ name. name.now) definition.entry) (map string_bytes inputs.now))
        (F.state files.old) (F.state files.new) (said_in result) }
{
    match read_link_input(alloc, files, out, definition, inputs) {
        Ok(read) => link_input(alloc, files, out, read),
        Err(why) => in_full(alloc, why),
    }
}
