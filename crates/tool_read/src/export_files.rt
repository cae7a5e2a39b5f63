//! The files of an import library, loaded and read in turn.
ghost use Rattle.std.specs.Prelude.{◌≡◌, ℕ, List, Result, IfOk, map, string_bytes};
ghost use Rattle.std.specs.List.{All};
ghost use Rattle.lx_ports.specs.declared.files.LoadFault.{LoadFault};
ghost use Rattle.answer_model.specs.Items.{module_or_definition};
ghost use Rattle.answer_model.specs.Says.{asked_exporters};
ghost use Rattle.tool_read.specs.Readings.{ReadsLoad, WholeExporter, exporter_item};
ghost use Rattle.tool_read.specs.Steps.{IsOneLoad, ReadsInTurn};

use crate::exporters::{Exporter, read_exporter};
use lx_ports::Files;
use lx_types::{Fail, MAX_FILE};
use refusal_text::Refused;
use std::alloc::Global;

fn read_next<F: Files>(alloc: Global, files: &mut F, name: &str) -> Result<Exporter, Fail<Refused>>
    ensures read { (answer : Result (List ℕ) LoadFault)
        × IsOneLoad name.now answer (F.state files.old) (F.state files.new)
        × ReadsLoad exporter_item module_or_definition name.now answer result }
    ensures whole { IfOk result WholeExporter }
{
    let loaded = files.load(alloc, name, MAX_FILE);
    read_exporter(alloc, name, loaded)
}

/// The modules and definition files of these names, which are loaded and read in turn.
pub fn read_exporters<F: Files>(
    alloc: Global,
    files: &mut F,
    names: &[String],
) -> Result<Vec<Exporter>, Fail<Refused>>
    ensures read { ReadsInTurn (λ read items. items ≡ map exporter_item read.items) (asked_exporters (map string_bytes names.now))
        (F.state files.old) (F.state files.new) result }
    ensures whole { IfOk result (λ read. All WholeExporter read.items) }
{
    let mut read = Vec::new(alloc);
    for name in names {
        match read_next(alloc, files, name) {
            Ok(next) => read.push(next)?,
            Err(why) => return Err(why),
        }
    }
    Ok(read)
}
