//! The import library of modules and definition files.
ghost use Rattle.std.specs.Prelude.{◌≢◌, [], map};
ghost use Rattle.std.specs.List.{All};
ghost use Rattle.lx_types.specs.Answers.{Answers};
ghost use Rattle.answer_model.specs.ImplibAnswer.{all_imports, imports_of};
ghost use Rattle.tool_read.specs.Readings.{WholeExporter, exporter_item};
ghost use Rattle.file_commands.specs.ImportLibraries.{IsLibraryOf, IsTooLong};

use implib_core::{ImportLibrary, LibraryLong, imports_of, imports_of_module, join};
use lx_types::{Bytes, Fail, Name, NoMemory, Seq};
use std::alloc::Global;
use tool_read::Exporter;

// The import library of a file, with the count of its imports.
fn library_of(
    alloc: Global,
    stem: &Name,
    exporter: &Exporter,
) -> Result<ImportLibrary, Fail<LibraryLong>>
    requires stem { stem.now ≢ [] }
    requires whole { WholeExporter exporter.now }
    ensures { Answers result
        (λ library. IsLibraryOf library (imports_of stem.now (exporter_item exporter.now)))
        (λ _. IsTooLong (imports_of stem.now (exporter_item exporter.now))) }
{
    match exporter {
        Exporter::Definition(file) => imports_of(alloc, file, stem),
        Exporter::Module(module) => imports_of_module(alloc, module),
    }
}

/// The libraries of all, joined.
pub fn joined(
    alloc: Global,
    stem: &Name,
    exporters: &[Exporter],
) -> Result<ImportLibrary, Fail<LibraryLong>>
    requires stem { stem.now ≢ [] }
    requires whole { All WholeExporter exporters.now }
    ensures { Answers result
        (λ library. IsLibraryOf library (all_imports stem.now (map exporter_item exporters.now)))
        (λ _. IsTooLong (all_imports stem.now (map exporter_item exporters.now))) }
{
    let mut libraries: Vec<Bytes> = Vec::new(alloc);
    let mut imports: usize = 0;
    for exporter in exporters {
        let own = match library_of(alloc, stem, exporter) {
            Ok(own) => own,
            Err(why) => return Err(why),
        };
        imports = imports.checked_add(own.imports).ok_or(NoMemory)?;
        libraries.push(Seq::from_vec(own.bytes))?;
    }
    match join(alloc, &libraries) {
        Ok(bytes) => Ok(ImportLibrary { bytes, imports }),
        Err(why) => Err(why),
    }
}
