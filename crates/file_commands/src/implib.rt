//! The command `implib`: an import library for modules and definition files.
ghost use Rattle.std.specs.Prelude.{◌≡◌, IfOk, map, string_bytes};
ghost use Rattle.std.specs.List.{All};
ghost use Rattle.answer_model.specs.ImplibAnswer.{all_imports, exports_line, implib_outcome};
ghost use Rattle.answer_model.specs.Stem.{stem_of};
ghost use Rattle.answer_model.specs.Words as words;
ghost use Rattle.tool_read.specs.Readings.{WholeExporter, exporter_item};
ghost use Rattle.file_commands.specs.Doing.{Does, DoesOutcome};
ghost use Rattle.file_commands.specs.Refusals.{RefusesLibrary, said_in};

use crate::library::joined;
use crate::refusals::{in_full, refused_as};
use crate::saving::keep;
use crate::told::Told;
use command_line::stem_of;
use implib_core::LibraryLong;
use lx_ports::Files;
use lx_types::{Bytes, Fail, NoMemory, Seq};
use refusal_text::Cause;
use std::alloc::{AllocError, Global};
use tool_read::{Exporter, read_exporters};

// `exports N`
fn exports_line(alloc: Global, count: usize) -> Result<Bytes, AllocError>
    ensures { IfOk result (λ line. line ≡ exports_line count) }
{
    let line = format!(in alloc; "exports {count}\n")?;
    Ok(Seq::from_vec(line.into_bytes()))
}

fn refused(alloc: Global, out: &str, why: Fail<LibraryLong>) -> Result<Told, NoMemory>
    ensures { RefusesLibrary out.now why (said_in result) }
{
    match why {
        Fail::Said(_) => refused_as(alloc, out, Cause::LibraryLong),
        Fail::NoMemory => Err(NoMemory),
    }
}

fn write_library<F: Files>(
    alloc: Global,
    files: &mut F,
    out: &str,
    exporters: &[Exporter],
) -> Result<Told, NoMemory>
    requires { All WholeExporter exporters.now }
    ensures { DoesOutcome (implib_outcome out.now (all_imports (stem_of out.now) (map exporter_item exporters.now)))
        (F.state files.old) (F.state files.new) (said_in result) }
{
    let stem = stem_of(alloc, out)?;
    match joined(alloc, &stem, exporters) {
        Ok(library) => {
            let line = exports_line(alloc, library.imports)?;
            keep(alloc, files, out, &library.bytes, line)
        }
        Err(why) => refused(alloc, out, why),
    }
}

/// Writes the import library OUT: loads the files in turn, joins their import libraries, saves that, and says how many
/// imports it has.
pub fn implib<F: Files>(
    alloc: Global,
    files: &mut F,
    out: &str,
    inputs: &[String],
) -> Result<Told, NoMemory>
    ensures { Does (words.implib out.now (map string_bytes inputs.now)) (F.state files.old) (F.state files.new) (said_in result) }
{
    match read_exporters(alloc, files, inputs) {
        Ok(read) => write_library(alloc, files, out, &read),
        Err(why) => in_full(alloc, why),
    }
}
