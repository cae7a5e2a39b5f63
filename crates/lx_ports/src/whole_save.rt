//! Saving a real file so that it is whole, or as it was.

use std::io::{ErrorKind, Write};
use std::{fs, io, rt};

/// How many symbolic links are followed one after the other.
const LINKS: usize = 40;

/// How many names are tried for a new file.
const NAMES: usize = 1000;

// The name of a file in the folder of that path.
fn beside<R: AllocGlobal>(rt: &R, path: &str, name: &str) -> io::Result<String> {
    let text = match path.rsplit_once('/') {
        Some((folder, _)) => format!(in rt.alloc(); "{folder}/{name}")?,
        None => name.to_string(rt.alloc())?,
    };
    Ok(text)
}

// Where a symbolic link leads, or None where the path is none.
fn link_target<R: rt::Files + AllocGlobal>(rt: &R, path: &str) -> io::Result<Option<String>> {
    match fs::symlink_metadata(rt, path) {
        Ok(found) if found.is_symlink() => {}
        _ => return Ok(None),
    }
    let target = fs::read_link(rt, path)?;
    let target = target.as_path().as_str();
    if target.starts_with('/') {
        return Ok(Some(target.to_string(rt.alloc())?));
    }
    Ok(Some(beside(rt, path, target)?))
}

// The path of the file that is not there yet: the name itself, or where symbolic links lead from there.
fn absent_target<R: rt::Files + AllocGlobal>(rt: &R, name: &str) -> io::Result<String> {
    let mut path = name.to_string(rt.alloc())?;
    for _ in 0..LINKS {
        match link_target(rt, path.as_str())? {
            Some(target) => path = target,
            None => return Ok(path),
        }
    }
    Err(io::Error::from(ErrorKind::InvalidInput))
}

// Makes a new file in the folder of that path, under a name that no file had.
fn create_beside<R: rt::Files + AllocGlobal>(rt: &R, path: &str) -> io::Result<(String, R::File)> {
    for number in 0..NAMES {
        let name = format!(in rt.alloc(); ".lx-new-{number}")?;
        let name = beside(rt, path, name.as_str())?;
        let made = fs::OpenOptions::new()
            .write(true)
            .create_new(true)
            .open(rt, name.as_str());
        match made {
            Ok(file) => return Ok((name, file)),
            Err(e) if e.kind() == ErrorKind::AlreadyExists => {}
            Err(e) => return Err(e),
        }
    }
    Err(io::Error::from(ErrorKind::AlreadyExists))
}

// Fills the new file and puts it in the place of that path, with the modes of the file that was there.
fn fill_and_rename<R: rt::Files + AllocGlobal>(
    rt: &R,
    name: &str,
    mut file: R::File,
    path: &str,
    bytes: &[u8],
) -> io::Result<()> {
    file.write_all(bytes)?;
    if let Ok(old) = fs::metadata(rt, path) {
        fs::set_permissions(rt, name, old.permissions())?;
    }
    fs::rename(rt, name, path)
}

// Puts a new file in the place of that path. Where that fails the new file is removed.
fn replace<R: rt::Files + AllocGlobal>(rt: &R, path: &str, bytes: &[u8]) -> io::Result<()> {
    let (name, file) = create_beside(rt, path)?;
    let done = fill_and_rename(rt, name.as_str(), file, path, bytes);
    if done.is_err() {
        let _ = fs::remove_file(rt, name.as_str());
    }
    done
}

// Puts a new file in the place of one that may be written. Its modes stay, and a symbolic link to it stays one.
fn replace_old<R: rt::Files + AllocGlobal>(rt: &R, name: &str, bytes: &[u8]) -> io::Result<()> {
    let _writable = fs::OpenOptions::new().write(true).open(rt, name)?;
    let path = fs::canonicalize(rt, name)?;
    replace(rt, path.as_path().as_str(), bytes)
}

/// Makes these bytes the whole file of this name. A new file is written beside it and takes its place at the end; where
/// anything fails the file is as it was, or is still not there. What is no regular file, as a device or a pipe, is
/// written straight.
pub(crate) fn save_whole<R: rt::Files + AllocGlobal>(
    rt: &R,
    name: &str,
    bytes: &[u8],
) -> io::Result<()> {
    match fs::metadata(rt, name) {
        Ok(old) if old.is_file() => replace_old(rt, name, bytes),
        Ok(_) => fs::write(rt, name, bytes),
        Err(e) if e.kind() == ErrorKind::NotFound => {
            let path = absent_target(rt, name)?;
            replace(rt, path.as_str(), bytes)
        }
        Err(e) => Err(e),
    }
}
