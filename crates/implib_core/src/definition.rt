//! The import library of a definition file.

ghost use Rattle.std.specs.Prelude.{◌≡◌, ◌≢◌, ◌≤◌, ◌<◌, [], IfOk, length};
ghost use Rattle.std.specs.List.{All};
ghost use Rattle.lx_types.specs.Answers.{Answers};
ghost use Rattle.obj_types.specs.Definition.{WholeDef, WholeExport};
ghost use Rattle.omf_model.specs.Library.{Lib};
ghost use Rattle.implib_model.specs.ImportModule.{ImportFits};
ghost use Rattle.implib_model.specs.Library.{library_bytes, library_len};
ghost use Rattle.omf_write.specs.declared.libraries.TheConstants.{LIBRARY_LIMIT as limit};
ghost use Rattle.implib_model.specs.Imports.{name_or, key_of, import_for, imports_for, imports_in, modules_of, objects_of};
ghost use Rattle.omf_write.specs.Lent as lent;
ghost use Rattle.omf_write.specs.Lent.{AllFit};

use crate::imports::{ImportLibrary, library_of};
use lx_types::{Fail, Name, NoMemory};
use obj_types::{DefFile, Exp};
use omf_write::{LentEntry, LentImport, LibraryLong};
use std::alloc::Global;

// How an export is named where it is imported.
fn entry_of(export: &Exp) -> LentEntry<'_>
    ensures { lent.key_of result ≡ key_of export.entry.now.name export.entry.now.ordinal }
{
    match export.ordinal {
        Some(ordinal) => LentEntry::Ordinal(u32::from(ordinal)),
        None => LentEntry::Named(&export.name),
    }
}

// The import of an export of a module.
fn import_of<'a>(from: &'a Name, export: &'a Exp) -> LentImport<'a>
    requires from { from.now ≢ [] }
    requires whole { WholeExport export.now }
    ensures is { lent.import_of result ≡ import_for from.entry.now export.entry.now }
    ensures fits { ImportFits (lent.import_of result) }
{
    LentImport {
        name: &export.name,
        module: from,
        entry: entry_of(export),
    }
}

// The imports of the exports of a module, in their order.
fn imports_for<'a>(
    alloc: Global,
    from: &'a Name,
    exports: &'a [Exp],
) -> Result<Vec<LentImport<'a>>, NoMemory>
    requires from { from.now ≢ [] }
    requires whole { All WholeExport exports.now }
    ensures are { IfOk result (λ imports. lent.imports_of imports.items ≡ imports_for from.entry.now exports.entry.now) }
    ensures fit { IfOk result (λ imports. AllFit imports.items) }
{
    let mut imports = Vec::with_capacity(alloc, exports.len())?;
    for export in exports {
        imports.push(import_of(from, export))?;
    }
    Ok(imports)
}

/// The import library of the module that is linked with a definition file: an object module for each of its
/// EXPORTS, in their order, by which a program that links with the library imports it. An export is imported by its
/// ordinal where it has one, otherwise by its name. The module's name is the definition file's, or else the stem, and
/// stands there in upper case. Read again, the library has just these imports.
///
/// `LibraryLong` exactly where it would have more than 16,777,216 bytes. The stem is not empty.
pub fn imports_of(
    alloc: Global,
    d: &DefFile,
    stem: &Name,
) -> Result<ImportLibrary, Fail<LibraryLong>>
    requires whole { WholeDef d.now }
    requires stem { stem.now ≢ [] }
    ensures written { Answers result
        (λ made. (made.bytes.items ≡ library_bytes (modules_of (imports_in d.now stem.now)))
        × (library_len (modules_of (imports_in d.now stem.now)) ≤ limit))
        (λ _. limit < library_len (modules_of (imports_in d.now stem.now))) }
    ensures read { IfOk result (λ made. Lib made.bytes.items (objects_of (imports_in d.now stem.now))) }
    ensures counted { IfOk result (λ made. made.imports ≡ length (imports_in d.now stem.now)) }
{
    let from = d.name.as_ref().unwrap_or(stem);
    let imports = imports_for(alloc, from, d.exports.as_slice())?;
    library_of(alloc, &imports)
}
