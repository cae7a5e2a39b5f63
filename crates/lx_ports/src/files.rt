//! Files by name, as the commands see them.
ghost use Rattle.std.specs.Prelude.{◌≡◌, ◌≤◌, ◌++◌, ◌∷◌, [], length, IfOk, IfSome, OnOk};
ghost use Rattle.lx_ports.specs.Calls.{load, save, load_answer};
ghost use Rattle.lx_ports.specs.Files.{FilesState, after_call, IsLoadOf, IsSaved, KeepsOthers};
ghost use Rattle.lx_ports.specs.declared.files.LoadFault.TheVariants.{NoMemory};

use std::alloc::{AllocError, Global};

/// Why a load has no bytes to give.
#[derive(Clone, Copy, Debug, PartialEq, Eq, Drop)]
pub enum LoadFault {
    /// There is no file of that name.
    Absent,
    /// The file is longer than the caller's limit.
    TooLong,
    /// Reading failed.
    Failed,
    /// There was no memory for the bytes.
    NoMemory,
}

/// Why a file was not saved.
#[derive(Clone, Copy, Debug, PartialEq, Eq, Drop)]
pub enum SaveFault {
    /// Writing failed, or there was no memory for it.
    Failed,
}

impl From<AllocError> for LoadFault {
    ghost from_gives = { λ _ fault. fault ≡ NoMemory };

    fn from(_: AllocError) -> Self {
        LoadFault::NoMemory
    }
}

/// Files, each of them whole: what a command loads and saves.
pub trait Files {
    /// What the files tell of themselves: the bytes that each name has, and every call so far with its answer.
    ghost state: { Self → FilesState };

    /// The whole file of this name, if it has at most `max` bytes. A load changes no file.
    fn load(&mut self, alloc: Global, name: &str, max: u32) -> Result<Vec<u8>, LoadFault>
        ensures answer { IfSome (state self.old).contents
            (λ contents. IsLoadOf (contents name.now) max (load_answer result)) }
        ensures limit { IfOk result (λ bytes. length bytes.items ≤ max) }
        ensures call { state self.new
            ≡ after_call (state self.old) (load name.now (load_answer result)) };

    /// Makes these bytes the whole file of this name. After an `Err` the file of this name may be anything; the others
    /// stand.
    fn save(&mut self, name: &str, bytes: &[u8]) -> Result<(), SaveFault>
        ensures saved { OnOk result
            (IsSaved (state self.old).contents (state self.new).contents name.now bytes.now) }
        ensures others { KeepsOthers (state self.old).contents (state self.new).contents name.now }
        ensures call { (state self.new).calls
            ≡ (state self.old).calls ++ save name.now bytes.now result ∷ [] };
}
