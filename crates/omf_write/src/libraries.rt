//! Libraries of object modules ("Microsoft LIB Library Format").

ghost use Rattle.std.specs.Prelude.{◌≡◌, ◌++◌, ◌+◌, ◌-◌, ◌%◌, ◌<◌, ◌≤◌, List, OnOk, IfOk, MatchOption, length, map};
ghost use Rattle.lx_types.specs.Answers.{Answers};
ghost use Rattle.obj_types.specs.declared.object.ObjModule.{ObjModule};
ghost use Rattle.omf_model.specs.Library.{Lib};
ghost use Rattle.implib_model.specs.Library.{page_up, pages_of, library_len, header_bytes, end_bytes, library_bytes, AreModules};

use implib_model::PAGE;
use lx_types::{Bytes, Fail, MAX_FILE};
use omf_frame::record_type::{LIBRARY_END, LIBRARY_HEADER};
use std::alloc::{AllocError, Global};
use thiserror::Error;

/// The most bytes that a library may have.
pub const LIBRARY_LIMIT: u32 = MAX_FILE;

// The end, which is a page: its type, and a length that fills the page.
pub const END: [u8; PAGE] = [LIBRARY_END, 0x0D, 0, 0, 0, 0, 0, 0, 0, 0, 0, 0, 0, 0, 0, 0];

/// The library would have more than 16,777,216 bytes.
#[derive(Clone, Copy, Debug, Drop, Error)]
#[error("the library would have more than 16,777,216 bytes")]
pub struct LibraryLong;

// How many zeros stand between the end of so many bytes and the next page.
pub fn fill_of(len: usize) -> usize
    ensures { result ≡ (16 - len % 16) % 16 }
{
    (PAGE - len % PAGE) % PAGE
}

// How many bytes the library of these modules has, or None where they are too many.
fn len_of(modules: &[Bytes]) -> Option<u32>
    ensures { MatchOption result
        (LIBRARY_LIMIT < library_len modules.now)
        (λ len. (len ≡ library_len modules.now) × (len ≤ LIBRARY_LIMIT)) }
{
    let limit = u64::from(LIBRARY_LIMIT);
    let mut len = 2 * PAGE as u64;
    for own in modules {
        let size = own.as_slice().len();
        len += size as u64 + fill_of(size) as u64;
        if len > limit {
            return None;
        }
    }
    Some(len as u32)
}

// Writes a module, and zeros up to the next page.
fn push_page(out: &mut Vec<u8>, body: &[u8]) -> Result<(), AllocError>
    ensures { OnOk result (out.new.items ≡ out.old.items ++ page_up body.now) }
{
    out.extend_from_slice(body)?;
    out.resize(out.len() + fill_of(body.len()), 0)?;
    Ok(())
}

// Writes the header of a library of so many bytes.
pub fn push_header(out: &mut Vec<u8>, len: u32) -> Result<(), AllocError>
    ensures { OnOk result (out.new.items ≡ out.old.items ++ header_bytes len) }
{
    let [a, b, c, d] = len.to_le_bytes();
    out.extend_from_slice(&[
        LIBRARY_HEADER,
        0x0D,
        0,
        a,
        b,
        c,
        d,
        0,
        0,
        1,
        0,
        0,
        0,
        0,
        0,
        0,
    ])?;
    Ok(())
}

// Writes the modules, one after the other.
fn push_pages(out: &mut Vec<u8>, modules: &[Bytes]) -> Result<(), AllocError>
    ensures { OnOk result (out.new.items ≡ out.old.items ++ pages_of modules.now) }
{
    for own in modules {
        push_page(out, own.as_slice())?;
    }
    Ok(())
}

// The bytes of the library, unless it is too long.
fn written(alloc: Global, modules: &[Bytes]) -> Result<Vec<u8>, Fail<LibraryLong>>
    ensures { Answers result
        (λ bytes. (bytes.items ≡ library_bytes modules.now) × (library_len modules.now ≤ LIBRARY_LIMIT))
        (λ _. LIBRARY_LIMIT < library_len modules.now) }
{
    let Some(len) = len_of(modules) else {
        return Err(Fail::Said(LibraryLong));
    };
    let mut bytes = Vec::new(alloc);
    push_header(&mut bytes, len)?;
    push_pages(&mut bytes, modules)?;
    bytes.extend_from_slice(&END)?;
    Ok(bytes)
}

/// The library of these object modules, in their order, in pages of 16 bytes. Its header and its end are a page each,
/// and it has no dictionary. Each item is a module that ends with its MODEND; then the library is read as these
/// modules. `LibraryLong` exactly where it would have more than 16,777,216 bytes.
pub fn library(alloc: Global, modules: &[Bytes]) -> Result<Vec<u8>, Fail<LibraryLong>>
    ensures written { Answers result
        (λ bytes. (bytes.items ≡ library_bytes modules.now) × (library_len modules.now ≤ LIBRARY_LIMIT))
        (λ _. LIBRARY_LIMIT < library_len modules.now) }
    ensures read { (ms : List ObjModule) → AreModules modules.now ms
        → IfOk result (λ bytes. Lib bytes.items ms) }
{
    written(alloc, modules)
}
