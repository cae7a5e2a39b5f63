//! The system's files, and what it said last where one of its calls failed.

ghost use Rattle.std.specs.Prelude.{◌≡◌};

use std::alloc::Allocator;
use std::cell::Cell;
use std::fs::{Metadata, OpenFile, OpenOptions, Permissions};
use std::io::{Error, Read, Result, Seek, SeekFrom, Write};
use std::path::PathBuf;
use std::rt::Files;

/// What the system said of its last call that failed.
pub type Answer = Cell<Option<Error>>;

// Notes what the system said of a call that failed.
fn noted<T>(answer: &Answer, answered: Result<T>) -> Result<T>
    ensures { result ≡ answered }
{
    if let Err(error) = &answered {
        answer.set(Some(*error));
    }
    answered
}

/// The files of a runtime. What the system says of a call that fails is noted.
#[derive(Drop)]
pub struct Heard<'a, R> {
    rt: &'a R,
    answer: &'a Answer,
}

/// A file that is open. What the system says of a write that fails is noted.
#[derive(Drop)]
pub struct HeardFile<'a, F> {
    file: F,
    answer: &'a Answer,
}

impl<'a, R> Heard<'a, R> {
    /// The files of this runtime, of which this has what the system says.
    pub fn new(rt: &'a R, answer: &'a Answer) -> Heard<'a, R> {
        Heard { rt, answer }
    }
}

impl<'a, R: Files> Files for Heard<'a, R> {
    type File = HeardFile<'a, R::File>;

    type Dir = R::Dir;

    fn open_file(&self, how: &OpenOptions, path: &str) -> Result<HeardFile<'a, R::File>> {
        let file = noted(self.answer, self.rt.open_file(how, path))?;
        Ok(HeardFile {
            file,
            answer: self.answer,
        })
    }

    fn open_dir(&self, path: &str) -> Result<R::Dir> {
        self.rt.open_dir(path)
    }

    fn metadata(&self, path: &str) -> Result<Metadata> {
        noted(self.answer, self.rt.metadata(path))
    }

    fn symlink_metadata(&self, path: &str) -> Result<Metadata> {
        self.rt.symlink_metadata(path)
    }

    fn copy(&self, from: &str, to: &str) -> Result<u64> {
        self.rt.copy(from, to)
    }

    fn rename(&self, from: &str, to: &str) -> Result<()> {
        noted(self.answer, self.rt.rename(from, to))
    }

    // (what is removed after a save that failed is none of what it failed of)
    fn remove_file(&self, path: &str) -> Result<()> {
        self.rt.remove_file(path)
    }

    fn create_dir(&self, path: &str) -> Result<()> {
        self.rt.create_dir(path)
    }

    fn remove_dir(&self, path: &str) -> Result<()> {
        self.rt.remove_dir(path)
    }

    fn remove_dir_all<B: Allocator>(&self, alloc: B, path: &str) -> Result<()> {
        self.rt.remove_dir_all(alloc, path)
    }

    fn canonicalize<B: Allocator>(&self, alloc: B, path: &str) -> Result<PathBuf<B>> {
        noted(self.answer, self.rt.canonicalize(alloc, path))
    }

    fn read_link<B: Allocator>(&self, alloc: B, path: &str) -> Result<PathBuf<B>> {
        noted(self.answer, self.rt.read_link(alloc, path))
    }

    fn set_permissions(&self, path: &str, perm: Permissions) -> Result<()> {
        noted(self.answer, self.rt.set_permissions(path, perm))
    }
}

impl<F: Read> Read for HeardFile<'_, F> {
    ghost remaining = { λ it. F.remaining it.file };

    fn read(&mut self, buf: &mut [u8]) -> Result<usize> {
        noted(self.answer, self.file.read(buf))
    }
}

impl<F: Write> Write for HeardFile<'_, F> {
    ghost contents = { λ it. F.contents it.file };

    fn write(&mut self, buf: &[u8]) -> Result<usize> {
        noted(self.answer, self.file.write(buf))
    }

    fn flush(&mut self) -> Result<()> {
        noted(self.answer, self.file.flush())
    }
}

impl<F: Seek> Seek for HeardFile<'_, F> {
    ghost stream_position = { λ it. F.stream_position it.file };

    ghost stream_bytes = { λ it. F.stream_bytes it.file };

    fn seek(&mut self, to: SeekFrom) -> Result<u64> {
        self.file.seek(to)
    }
}

impl<F: OpenFile> OpenFile for HeardFile<'_, F> {
    fn metadata(&self) -> Result<Metadata> {
        self.file.metadata()
    }

    fn set_len(&self, size: u64) -> Result<()> {
        self.file.set_len(size)
    }

    fn sync_all(&self) -> Result<()> {
        self.file.sync_all()
    }

    fn sync_data(&self) -> Result<()> {
        self.file.sync_data()
    }
}
