//! The real files and the real standard output. They tell nothing of what a file or a terminal has: files tell which
//! calls they had, and the sink counts what failed.
ghost use Rattle.std.specs.Prelude.{◌≡◌, ◌≤◌, [], IfOk, length, None};

use crate::log::{Log, Note};
use crate::whole_save::save_whole;
use crate::{Files, LoadFault, SaveFault, Sink, SinkFailed};
use std::alloc::Global;
use std::fs::OpenFile;
use std::io::{ErrorKind, Read, Write};
use std::{fs, io, rt};

/// The files of the system, by their paths. A save that fails leaves the file of its name as it was: a new one is written
/// beside it and renamed at the end.
#[derive(Drop)]
pub struct DiskFiles<R> {
    rt: R,
    log: Log,
}

impl<R: rt::Files + AllocGlobal> DiskFiles<R> {
    /// The files that this runtime reaches. No call has been made yet.
    pub fn new(rt: R) -> DiskFiles<R>
        ensures { (⟦<DiskFiles<R> as Files>⟧.state result).calls ≡ [] }
    {
        DiskFiles {
            rt,
            log: Log::new(),
        }
    }
}

impl<R: rt::Files + AllocGlobal> Files for DiskFiles<R> {
    ghost state = { λ files. record { contents = None; calls = files.log.calls } };

    fn load(&mut self, alloc: Global, name: &str, max: u32) -> Result<Vec<u8>, LoadFault> {
        let answer = whole_file(&self.rt, alloc, name, max);
        self.log = self.log.and(&Note::Load {
            name,
            answer: &answer,
        });
        answer
    }

    fn save(&mut self, name: &str, bytes: &[u8]) -> Result<(), SaveFault> {
        let answer = save_whole(&self.rt, name, bytes).map_err(|_| SaveFault::Failed);
        self.log = self.log.and(&Note::Save {
            name,
            bytes,
            answer: &answer,
        });
        answer
    }
}

// The file's bytes, if there are at most `max` of them.
fn whole_file<R: rt::Files>(
    rt: &R,
    alloc: Global,
    name: &str,
    max: u32,
) -> Result<Vec<u8>, LoadFault>
    ensures { IfOk result (λ bytes. length bytes.items ≤ max) }
{
    match front(rt, alloc, name, max) {
        Ok(bytes) if bytes.len() <= max as usize => Ok(bytes),
        Ok(_) => Err(LoadFault::TooLong),
        Err(e) => Err(match e.kind() {
            ErrorKind::NotFound => LoadFault::Absent,
            ErrorKind::OutOfMemory => LoadFault::NoMemory,
            _ => LoadFault::Failed,
        }),
    }
}

// The file's bytes, but at most one more than `max` of them. Room for them is taken at once, where the system tells how many
// there are, and for one more, which tells the end.
fn front<R: rt::Files>(rt: &R, alloc: Global, name: &str, max: u32) -> io::Result<Vec<u8>> {
    let file = fs::open(rt, name)?;
    let size = match file.metadata() {
        Ok(about) => about.len(),
        Err(_) => 0,
    };
    let most = u64::from(max) + 1;
    let room = size.saturating_add(1).min(most);
    let mut bytes = Vec::with_capacity(alloc, room as usize)?;
    file.take(most).read_to_end(&mut bytes)?;
    Ok(bytes)
}

/// Standard output, or any writer in its place. It tells what the writer tells, which is nothing for standard output.
#[derive(Drop)]
pub struct StdSink<W> {
    out: W,
    faults: u64,
}

impl<W: Write> StdSink<W> {
    /// A sink that puts into this writer.
    pub fn new(out: W) -> StdSink<W>
        ensures { (⟦<StdSink<W> as Sink>⟧.state result).contents ≡ W.contents out }
    {
        StdSink { out, faults: 0 }
    }
}

impl<W: Write> Sink for StdSink<W> {
    ghost state = { λ sink. record { contents = W.contents sink.out; faults = sink.faults } };

    fn put(&mut self, bytes: &[u8]) -> Result<usize, SinkFailed> {
        if bytes.is_empty() {
            return Ok(0);
        }
        match self.out.write(bytes) {
            Ok(count) if count > 0 => Ok(count),
            _ => {
                self.faults = self.faults.saturating_add(1);
                Err(SinkFailed)
            }
        }
    }
}
