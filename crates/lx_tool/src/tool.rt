//! The commands that need no threads: all that the program does but sessions, over the files and the sink that it is handed.
ghost use Rattle.std.specs.Prelude.{◌≡◌, ◌≤◌, IfOk, map, string_bytes};
ghost use Rattle.answer_model.specs.FileLine.{usage_line};
ghost use Rattle.answer_model.specs.Ends.{Ends};
ghost use Rattle.answer_model.specs.Words.{command_of};
ghost use Rattle.answer_model.specs.Words as words;
ghost use Rattle.gen_core.specs.Doing.{NamesUnsaved};
ghost use Rattle.file_commands.specs.Doing.{Does, DoesWords};
ghost use Rattle.file_commands.specs.Refusals.{said_in};
ghost use Rattle.lx_tool.specs.Running.{Tells};

use crate::output::put_said;
use answer_model::{NO_MEMORY, Said, USAGE};
use command_line::Command;
use file_commands::bind::bind;
use file_commands::dump::dump;
use file_commands::image::image;
use file_commands::implib::implib;
use file_commands::link::link;
use file_commands::show::show;
use file_commands::{Told, show_map, show_memory};
use gen_core::{Made, generate};
use lx_ports::{Files, Sink};
use lx_types::{NoMemory, Seq};
use refusal_text::{Cause, LinkFiles, Refused};
use std::alloc::Global;

/// How a call that needs no threads ended: with its status; with what was refused, where something was: then the line that was
/// put is its text; and with the link that a map is of.
#[derive(Drop)]
pub struct Built {
    pub status: u8,
    pub refused: Option<Refused>,
    pub mapped: Option<LinkFiles>,
}

fn usage(alloc: Global) -> Result<Told, NoMemory>
    ensures { IfOk result (λ told. told.said ≡ record { status = 2; text = usage_line }) }
{
    let line = Vec::from_slice(alloc, b"lx: usage\n".as_slice())?;
    Ok(Told::plain(Said {
        status: USAGE,
        text: Seq::from_vec(line),
    }))
}

// What the generator says, which refuses nothing but may not save a file.
fn made_told(made: Made) -> Told
    requires { NamesUnsaved made }
    ensures { result.said ≡ made.said }
{
    let Made { said, unsaved } = made;
    match unsaved {
        None => Told::plain(said),
        Some(name) => {
            let cause = Cause::Unsaved;
            Told::of(said, Refused { name, cause })
        }
    }
}

fn generated<F: Files>(
    alloc: Global,
    files: &mut F,
    count: u32,
    prefix: &str,
) -> Result<Told, NoMemory>
    requires first { 1 ≤ count }
    requires last { count ≤ 64 }
    ensures { Does (words.gen count prefix.now) (F.state files.old) (F.state files.new) (said_in result) }
{
    match generate(alloc, files, count, prefix) {
        Ok(made) => Ok(made_told(made)),
        Err(NoMemory) => Err(NoMemory),
    }
}

/// Does what the words ask for, up to what is said at the end.
fn answer<F: Files>(alloc: Global, words: &[String], files: &mut F) -> Result<Told, NoMemory>
    ensures { DoesWords (command_of (map string_bytes words.now)) (F.state files.old) (F.state files.new) (said_in result) }
{
    match Command::of(words) {
        Some(Command::Image { object, base }) => image(alloc, files, object, base),
        Some(
            Command::Link {
                out,
                definition,
                inputs,
            },
        ) => link(alloc, files, out, definition, inputs),
        Some(Command::Implib { out, inputs }) => implib(alloc, files, out, inputs),
        Some(
            Command::Bind {
                out,
                target,
                resources,
            },
        ) => bind(alloc, files, out, target, resources),
        Some(Command::Gen { count, prefix }) => generated(alloc, files, count, prefix),
        Some(Command::Dump { file }) => dump(alloc, files, file),
        Some(Command::Map { definition, inputs }) => show_map(alloc, files, definition, inputs),
        Some(Command::Memory { modules }) => show_memory(alloc, files, modules),
        Some(Command::Show { file }) => show(alloc, files, file),
        None => usage(alloc),
    }
}

/// Does what the words ask for, and answers the status with which the program ends, and what was refused.
///
/// `image OBJ BASE` links the object file OBJ alone as the library IMAGE from BASE, eight hexadecimal digits, and puts
/// the bytes that its objects have in memory there, 16 on a line. `link OUT DEF IN ..` links object files and libraries
/// by the definition file DEF, or without one where DEF is `-`, saves the module OUT and puts its name and counts.
/// `implib OUT IN ..` saves the import library OUT of modules and definition files and puts how many imports it has.
/// `bind OUT MODULE RES` saves as OUT the file MODULE with the items of the resource file RES and puts how many they are.
/// `gen N PREFIX` saves object files and definition files of N modules, from 1 to 64, and a session of them, under names that
/// begin with PREFIX, and puts how many pages and record sources the modules have and what their words in memory sum to.
/// `dump FILE` puts the lists of the module FILE. `map DEF IN ..` puts where all stands that the link of these files places.
/// `memory MODULE ..` puts what the objects of the first module hold in memory once it is loaded, or started, and those of each module
/// that it reaches. `show FILE` puts what is in a module, an object file, a library or a resource file, part by part, up to the first
/// fault. All other words are no command.
///
/// The statuses: 0, the whole text was put; 1, a file is absent, too long (over 16,777,216 bytes) or has a fault, or the
/// link, the library, the binding or the load is refused; 2, the words are no command; 3, reading failed; 4, saving failed, or putting, after
/// some of the text; 8, there was no memory, and nothing was saved or put. With 1, 2, 3 and a failed save one line was
/// put, of `show` after what was read before a fault. Each file is loaded once for each time that it is named, in the order of the words, and none after the first
/// that is refused; OUT is saved after all loads, once. `image`, `dump`, `map`, `memory` and `show` save nothing. The files of `gen` are saved
/// one after the other, and none after the first that is not; nothing is loaded for them.
pub fn lx_build<F: Files, S: Sink>(
    alloc: Global,
    words: &[String],
    files: &mut F,
    out: &mut S,
) -> Built
    ensures ends { Ends (map string_bytes words.now) (F.state files.old) (F.state files.new)
        (S.state out.old) (S.state out.new) result.status }
    ensures tells { Tells result.refused (S.state out.old) (S.state out.new) result.status }
{
    match answer(alloc, words, files) {
        Ok(told) => {
            let status = put_said(out, &told.said);
            Built {
                status,
                refused: told.refused,
                mapped: told.mapped,
            }
        }
        Err(NoMemory) => Built {
            status: NO_MEMORY,
            refused: None,
            mapped: None,
        },
    }
}
