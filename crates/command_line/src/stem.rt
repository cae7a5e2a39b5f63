//! The name of a module for which no definition file has one.
ghost use Rattle.std.specs.Prelude.{◌≡◌, ◌≢◌, ◌==◌, [], IfOk};
ghost use Rattle.std.specs.List.{before_first, position};
ghost use Rattle.answer_model.specs.Stem.{last_part, stem_of, stem_part};

use lx_types::{Name, NoMemory};
use std::alloc::Global;

/// The most bytes that a name may have.
const LONGEST: usize = 255;

/// The name that a file gives the module which is written to it: the last part of its path before the first dot of
/// that, in upper case and cut to 255 bytes, or MODULE where nothing stands there.
pub fn stem_of(alloc: Global, path: &str) -> Result<Name, NoMemory>
    ensures stem { IfOk result (λ name. name ≡ stem_of path.now) }
    ensures named { IfOk result (λ name. name ≢ []) }
{
    let part = stem_part(path.as_bytes());
    if part.is_empty() {
        return Name::of_short(alloc, b"MODULE");
    }
    let short = &part[..part.len().min(LONGEST)];
    Name::of_short(alloc, short)?.to_uppercase(alloc)
}

fn stem_part(path: &[u8]) -> &[u8]
    ensures { result.now ≡ stem_part path.now }
{
    before_dot(last_part(path))
}

// The bytes after the last slash, or all where there is none.
fn last_part(path: &[u8]) -> &[u8]
    ensures { result.now ≡ last_part path.now }
{
    let mut start = path.len();
    while start > 0 && path[start - 1] != b'/' {
        start -= 1;
    }
    &path[start..]
}

// The place of the first dot.
fn dot_in(part: &[u8]) -> Option<usize>
    ensures { result ≡ position (λ byte. byte == 46) part.now }
{
    part.iter().position(|byte| *byte == b'.')
}

// The bytes before the first dot, or all where there is none.
fn before_dot(part: &[u8]) -> &[u8]
    ensures { result.now ≡ before_first (λ byte. byte == 46) part.now }
{
    match dot_in(part) {
        Some(dot) => &part[..dot],
        None => part,
    }
}
