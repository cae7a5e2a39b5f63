//! How a row ended against what it wants.

use crate::bytes::has_at;
use crate::row::{Ended, Named, Row, find_bytes};
use std::alloc::{AllocError, Global};

/// What is told of a text: its characters, and a point for each byte that is none.
pub fn shown(alloc: Global, bytes: &[u8]) -> Result<String, AllocError> {
    let mut text = String::new(alloc);
    for byte in bytes {
        match byte {
            b'\n' => text.push_str("\\n")?,
            0x20..=0x7E => text.push(*byte as char)?,
            _ => text.push('.')?,
        }
    }
    Ok(text)
}

// The first place at which bytes differ.
fn first_difference(one: &[u8], other: &[u8]) -> usize {
    one.iter()
        .zip(other.iter())
        .take_while(|(a, b)| a == b)
        .count()
}

// How the file of a name differs from the one that is wanted there.
fn file_difference(
    alloc: Global,
    name: &str,
    found: Option<&[u8]>,
    wanted: Option<&[u8]>,
) -> Result<Option<String>, AllocError> {
    let told = match (found, wanted) {
        (None, None) => return Ok(None),
        (Some(_), None) => format!(in alloc; "{name} is there"),
        (None, Some(_)) => format!(in alloc; "{name} is not there"),
        (Some(found), Some(wanted)) if found == wanted => return Ok(None),
        (Some(found), Some(wanted)) => {
            let place = first_difference(found, wanted);
            let length = found.len();
            format!(in alloc; "{name} has {length} bytes and differs from place {place} on")
        }
    };
    Ok(Some(told?))
}

// What is wanted under a name: what the row saves, otherwise the file that was there.
fn wanted_file<'a>(row: &'a Row, files: &'a [Named], name: &str) -> Option<&'a [u8]> {
    match find_bytes(&row.saved, name) {
        Some(bytes) => Some(bytes),
        None => find_bytes(files, name),
    }
}

// How the files under the words of the command differ. A file of which only a part is wanted is not among them.
fn files_difference(
    alloc: Global,
    row: &Row,
    files: &[Named],
    ended: &Ended,
) -> Result<Option<String>, AllocError> {
    for name in &row.words {
        let name = name.as_str();
        if row.held.iter().all(|held| held.name.as_str() != name) {
            let wanted = wanted_file(row, files, name);
            let told = file_difference(alloc, name, ended.files.get(name), wanted)?;
            if told.is_some() {
                return Ok(told);
            }
        }
    }
    Ok(None)
}

// The part of a saved file that is not as it is wanted.
fn part_difference(alloc: Global, row: &Row, ended: &Ended) -> Result<Option<String>, AllocError> {
    for held in &row.held {
        let name = held.name.as_str();
        let place = held.place;
        let has = match ended.files.get(name) {
            Some(bytes) => has_at(bytes, place, &held.bytes),
            None => false,
        };
        if !has {
            return Ok(Some(format!(in alloc; "{name} differs at place {place}")?));
        }
    }
    Ok(None)
}

// What was said on standard error, where the row wants something else there.
fn saying_difference(
    alloc: Global,
    row: &Row,
    ended: &Ended,
) -> Result<Option<String>, AllocError> {
    match &row.says {
        Some(says) if says.as_str() != ended.said.as_str() => {
            let said = shown(alloc, ended.said.as_bytes())?;
            Ok(Some(format!(in alloc; "said {said}")?))
        }
        _ => Ok(None),
    }
}

/// How a row ended otherwise than it wants, where it did: by its status, its text, the files under the words of the
/// command, the parts of files that it names, and what was said on standard error.
pub fn difference(
    alloc: Global,
    row: &Row,
    files: &[Named],
    ended: &Ended,
) -> Result<Option<String>, AllocError> {
    let status = ended.status;
    if status != row.status || ended.text.as_slice() != row.text.as_slice() {
        let text = shown(alloc, &ended.text)?;
        return Ok(Some(format!(in alloc; "status {status}, text {text}")?));
    }
    match files_difference(alloc, row, files, ended)? {
        Some(told) => Ok(Some(told)),
        None => match part_difference(alloc, row, ended)? {
            Some(told) => Ok(Some(told)),
            None => saying_difference(alloc, row, ended),
        },
    }
}
