//! Libraries joined into one.

ghost use Rattle.std.specs.Prelude.{◌≡◌, ◌++◌, ◌+◌, ◌*◌, ◌<◌, ◌≤◌, List, ℕ, OnOk, IfOk, MatchOption, length, map};
ghost use Rattle.std.specs.List.{AllByRecursion};
ghost use Rattle.lx_types.specs.Answers.{Answers};
ghost use Rattle.implib_model.specs.Library.{library_bytes, library_len};
ghost use Rattle.omf_write.specs.Joined.{HasEnds, pages_in, joined_pages, joined_len, joined_bytes, modules_together};
ghost use Rattle.omf_write.specs.declared.libraries.TheConstants.{LIBRARY_LIMIT as limit};

use crate::libraries::{END, LIBRARY_LIMIT, LibraryLong, push_header};
use implib_model::PAGE;
use lx_types::{Bytes, Fail};
use std::alloc::{AllocError, Global};

// What stands between the header and the end of a library.
fn pages_in(library: &[u8]) -> &[u8]
    requires { HasEnds library.now }
    ensures { result.now ≡ pages_in library.now }
{
    &library[PAGE..library.len() - PAGE]
}

// How many bytes the libraries have together, or None where they are too many.
fn len_together(libraries: &[Bytes]) -> Option<u32>
    requires { AllByRecursion HasEnds libraries.now }
    ensures { MatchOption result
        (limit < joined_len libraries.now)
        (λ len. (len ≡ joined_len libraries.now) × (len ≤ limit)) }
{
    let most = u64::from(LIBRARY_LIMIT);
    let mut len = 2 * PAGE as u64;
    for library in libraries {
        let own = pages_in(library.as_slice()).len();
        len += own as u64;
        if len > most {
            return None;
        }
    }
    Some(len as u32)
}

// Writes the pages of the libraries, one after the other.
fn push_all(out: &mut Vec<u8>, libraries: &[Bytes]) -> Result<(), AllocError>
    requires { AllByRecursion HasEnds libraries.now }
    ensures { OnOk result (out.new.items ≡ out.old.items ++ joined_pages libraries.now) }
{
    for library in libraries {
        out.extend_from_slice(pages_in(library.as_slice()))?;
    }
    Ok(())
}

// The bytes of all pages between one header and one end, unless they are too many.
fn joined(alloc: Global, libraries: &[Bytes]) -> Result<Vec<u8>, Fail<LibraryLong>>
    requires { AllByRecursion HasEnds libraries.now }
    ensures { Answers result
        (λ bytes. (bytes.items ≡ joined_bytes libraries.now) × (joined_len libraries.now ≤ limit))
        (λ _. limit < joined_len libraries.now) }
{
    let Some(len) = len_together(libraries) else {
        return Err(Fail::Said(LibraryLong));
    };
    let mut bytes = Vec::new(alloc);
    push_header(&mut bytes, len)?;
    push_all(&mut bytes, libraries)?;
    bytes.extend_from_slice(&END)?;
    Ok(bytes)
}

/// One library with the modules of all these, in their order. Each item is one that `library` wrote. `LibraryLong`
/// exactly where it would have more than 16,777,216 bytes.
pub fn join(alloc: Global, libraries: &[Bytes]) -> Result<Vec<u8>, Fail<LibraryLong>>
    requires { (each : List (List (List ℕ))) × (libraries.now ≡ map library_bytes each) }
    ensures { (each : List (List (List ℕ))) → libraries.now ≡ map library_bytes each
        → Answers result
        (λ bytes. (bytes.items ≡ library_bytes (modules_together each)) × (library_len (modules_together each) ≤ limit))
        (λ _. limit < library_len (modules_together each)) }
{
    joined(alloc, libraries)
}
