//! Import libraries: for each import an object module.

ghost use Rattle.std.specs.Prelude.{◌≡◌, ◌+◌, ◌*◌, ◌++◌, ◌<◌, ◌≤◌, OnOk, IfOk, MatchOption, length};
ghost use Rattle.lx_types.specs.Answers.{Answers};
ghost use Rattle.omf_model.specs.Library.{Lib};
ghost use Rattle.implib_model.specs.ImportModule.{ImportFits, NamesFit, entry_bytes, import_bytes};
ghost use Rattle.implib_model.specs.Imports.{modules_of, objects_of};
ghost use Rattle.implib_model.specs.Library.{library_len, header_bytes, end_bytes, library_bytes};
ghost use Rattle.omf_write.specs.Lent.{key_of, import_of, imports_of, AllFit, AllNamesFit, page_of, pages_for};

use crate::imports::push_import;
use crate::lent::{LentEntry, LentImport};
use crate::libraries::{END, LIBRARY_LIMIT, LibraryLong, fill_of, push_header};
use implib_model::PAGE;
use lx_types::{Fail, Name};
use std::alloc::{AllocError, Global};

// How many bytes the entry has that is imported under an internal name.
fn entry_len(internal: &Name, entry: LentEntry<'_>) -> usize
    ensures is { result ≡ length (entry_bytes internal.now (key_of entry.entry)) }
    ensures short { result ≤ 256 }
{
    match entry {
        LentEntry::Ordinal(_) => 2,
        LentEntry::Named(name) if name.bytes() == internal.bytes() => 1,
        LentEntry::Named(name) => 1 + name.bytes().len(),
    }
}

// How many bytes the object module of an import has: its three records without their names and the entry have 20.
fn import_len(import: LentImport<'_>) -> usize
    ensures is { result ≡ length (import_bytes (import_of import.entry)) }
    ensures short { result ≤ 1041 }
{
    20 + 2 * import.name.bytes().len()
        + import.module.bytes().len()
        + entry_len(import.name, import.entry)
}

// How many bytes the library of these imports has, or None where they are too many.
fn len_of(imports: &[LentImport<'_>]) -> Option<u32>
    ensures { MatchOption result
        (LIBRARY_LIMIT < 2 * PAGE + length (pages_for imports.now))
        (λ len. (len ≡ 2 * PAGE + length (pages_for imports.now)) × (len ≤ LIBRARY_LIMIT)) }
{
    let limit = u64::from(LIBRARY_LIMIT);
    let mut len = 2 * PAGE as u64;
    for import in imports {
        let size = import_len(*import);
        len += size as u64 + fill_of(size) as u64;
        if len > limit {
            return None;
        }
    }
    Some(len as u32)
}

// Writes the object module of an import, and zeros up to the next page.
fn push_page(
    out: &mut Vec<u8>,
    contents: &mut Vec<u8>,
    import: LentImport<'_>,
) -> Result<(), AllocError>
    requires { ImportFits (import_of import) }
    ensures is { OnOk result (out.new.items ≡ out.old.items ++ page_of import.entry) }
    ensures fits { NamesFit (import_of import.entry) }
{
    import.names_fit();
    let start = out.len();
    push_import(out, contents, import)?;
    let end = out.len();
    out.resize(end + fill_of(end - start), 0)?;
    Ok(())
}

// Writes the object modules of these imports, one after the other.
fn push_pages(
    out: &mut Vec<u8>,
    contents: &mut Vec<u8>,
    imports: &[LentImport<'_>],
) -> Result<(), AllocError>
    requires { AllFit imports.now }
    ensures is { OnOk result (out.new.items ≡ out.old.items ++ pages_for imports.now) }
    ensures fits { OnOk result (AllNamesFit imports.now) }
{
    for import in imports {
        push_page(out, contents, *import)?;
    }
    Ok(())
}

// The bytes of the library, unless it is too long.
fn written(alloc: Global, imports: &[LentImport<'_>]) -> Result<Vec<u8>, Fail<LibraryLong>>
    requires { AllFit imports.now }
    ensures is { Answers result
        (λ bytes. (bytes.items ≡ header_bytes (2 * PAGE + length (pages_for imports.now)) ++ (pages_for imports.now ++ end_bytes))
        × (2 * PAGE + length (pages_for imports.now) ≤ LIBRARY_LIMIT))
        (λ _. LIBRARY_LIMIT < 2 * PAGE + length (pages_for imports.now)) }
    ensures fits { IfOk result (λ _. AllNamesFit imports.now) }
{
    let Some(len) = len_of(imports) else {
        return Err(Fail::Said(LibraryLong));
    };
    let mut bytes = Vec::with_capacity(alloc, len as usize)?;
    let mut contents = Vec::new(alloc);
    push_header(&mut bytes, len)?;
    push_pages(&mut bytes, &mut contents, imports)?;
    bytes.extend_from_slice(&END)?;
    Ok(bytes)
}

/// The library with an object module for each of these imports, in their order. Each module is written where it stands, in
/// room that is taken once. Read again, the library has just these imports.
///
/// `LibraryLong` exactly where it would have more than 16,777,216 bytes.
pub fn import_library(
    alloc: Global,
    imports: &[LentImport<'_>],
) -> Result<Vec<u8>, Fail<LibraryLong>>
    requires { AllFit imports.now }
    ensures written { Answers result
        (λ bytes. (bytes.items ≡ library_bytes (modules_of (imports_of imports.now)))
        × (library_len (modules_of (imports_of imports.now)) ≤ LIBRARY_LIMIT))
        (λ _. LIBRARY_LIMIT < library_len (modules_of (imports_of imports.now))) }
    ensures read { IfOk result (λ bytes. Lib bytes.items (objects_of (imports_of imports.now))) }
{
    written(alloc, imports)
}
