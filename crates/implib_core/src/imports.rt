//! The library of imports.

ghost use Rattle.std.specs.Prelude.{◌≡◌, ◌≤◌, ◌<◌, IfOk, length};
ghost use Rattle.lx_types.specs.Answers.{Answers};
ghost use Rattle.omf_model.specs.Library.{Lib};
ghost use Rattle.implib_model.specs.Library.{library_bytes, library_len};
ghost use Rattle.omf_write.specs.declared.libraries.TheConstants.{LIBRARY_LIMIT as limit};
ghost use Rattle.implib_model.specs.Imports.{modules_of, objects_of};
ghost use Rattle.omf_write.specs.Lent.{imports_of, AllFit};

use lx_types::Fail;
use omf_write::{LentImport, LibraryLong, import_library};
use std::alloc::Global;

/// An import library, and how many imports it has.
#[derive(Drop)]
pub struct ImportLibrary {
    pub bytes: Vec<u8>,
    pub imports: usize,
}

/// The library with an object module for each of these imports.
pub fn library_of(
    alloc: Global,
    imports: &[LentImport<'_>],
) -> Result<ImportLibrary, Fail<LibraryLong>>
    requires { AllFit imports.now }
    ensures written { Answers result
        (λ made. (made.bytes.items ≡ library_bytes (modules_of (imports_of imports.now)))
        × (library_len (modules_of (imports_of imports.now)) ≤ limit))
        (λ _. limit < library_len (modules_of (imports_of imports.now))) }
    ensures read { IfOk result (λ made. Lib made.bytes.items (objects_of (imports_of imports.now))) }
    ensures counted { IfOk result (λ made. made.imports ≡ length imports.now) }
{
    let bytes = import_library(alloc, imports)?;
    Ok(ImportLibrary {
        bytes,
        imports: imports.len(),
    })
}
