//! Files and a sink that never fail, for callers that are to have no fault to tell.
ghost use Rattle.std.specs.Prelude.{◌≡◌, Some, None};
ghost use Rattle.lx_ports.specs.Calls.{load_faults};
ghost use Rattle.memory_ports.specs.Memory.{NoLoadIsToFail};
ghost use Rattle.memory_ports.specs.Names.{contents_in};

use crate::memory_files::MemFiles;
use lx_ports::{Files, LoadFault, SaveFault, Sink, SinkFailed};
use std::alloc::Global;

/// Files in memory of which no load fails.
#[derive(Drop)]
pub struct SureFiles {
    files: MemFiles,
    ghost sure: { NoLoadIsToFail files },
    pub ghost no_fault: { load_faults files.log.calls ≡ 0 },
}

impl SureFiles {
    ghost use Rattle.memory_ports.specs.Sure.{contents_of_sure};

    /// Files of these names. Of two entries of one name the first counts.
    pub fn of(alloc: Global, files: Vec<(String, Vec<u8>)>) -> SureFiles
        ensures { contents_of_sure result ≡ contents_in files.items }
    {
        SureFiles {
            files: MemFiles::of(alloc, files, Vec::new(alloc), Vec::new(alloc)),
        }
    }
}

impl Files for SureFiles {
    ghost use Rattle.memory_ports.specs.Sure.{contents_of_sure};

    ghost state = { λ sure. record { contents = Some (contents_of_sure sure); calls = sure.files.log.calls } };

    fn load(&mut self, alloc: Global, name: &str, max: u32) -> Result<Vec<u8>, LoadFault> {
        self.files.load(alloc, name, max)
    }

    fn save(&mut self, name: &str, bytes: &[u8]) -> Result<(), SaveFault> {
        self.files.save(name, bytes)
    }
}

/// A sink that takes every piece whole and keeps nothing.
#[derive(Clone, Copy)]
pub struct SureSink;

impl Sink for SureSink {
    ghost state = { λ _. record { contents = None; faults = 0 } };

    fn put(&mut self, bytes: &[u8]) -> Result<usize, SinkFailed> {
        Ok(bytes.len())
    }
}
