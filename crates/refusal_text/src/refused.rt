//! What was refused: a file, what files come to together, or a save.

use check_model::{CheckFault, Expected};
use def_model::DefRefusal;
use link_model::LinkRefusal;
use lx_model::LibraryRefusal;
use lx_types::{Bytes, LxRefusal, Name};
use memory_model::MemoryRefusal;
use obj_types::{LinkInput, OmfRefusal};
use res_model::{BindRefusal, ResRefusal};
use session_model::SessionRefusal;

/// The first fault of a file, by what it was read as.
pub enum FileFault {
    /// An object file or a library.
    Object(OmfRefusal),
    Definition(DefRefusal),
    Module(LxRefusal),
    Session(SessionRefusal),
    Resources(ResRefusal),
    /// The transcript of a run of a session, which is judged against that; and what the loader does there, where it tells another
    /// entry or reply.
    Transcript(CheckFault, Option<Expected>),
}

/// A file of a link.
#[derive(Drop)]
pub struct LinkFile {
    pub name: String,
    /// How many modules it has, where it is a library. An object file is one.
    pub library: Option<usize>,
}

/// What a link is given, and the object files and libraries that its modules come from, in their order.
pub struct LinkFiles {
    pub input: LinkInput,
    pub files: Vec<LinkFile>,
}

/// What keeps a module from being loaded: a module that it reaches, or it itself, by its name, and a name that this one imports and
/// that no library has, where it is for that.
#[derive(Drop)]
pub struct Obstacle {
    pub module: Name,
    pub import: Option<Name>,
}

/// Why a command ends with less than was asked for.
pub enum Cause {
    /// There is no such file.
    Absent,
    /// The file has more bytes than one may have.
    TooLong,
    /// The system doesn't give the file's bytes.
    Unreadable,
    /// The file, which has these bytes, has a fault.
    Faulty {
        fault: FileFault,
        bytes: Vec<u8>,
    },
    /// The same of a file that is shown: what was read before the fault is put first.
    FaultShown {
        shown: Bytes,
        fault: FileFault,
        bytes: Vec<u8>,
    },
    /// The files don't link.
    Unlinked {
        refusal: LinkRefusal,
        files: LinkFiles,
    },
    /// The module that is shown in memory imports others.
    Imports {
        files: LinkFiles,
    },
    /// An object of it, by its number, ends past the arenas.
    ArenaFull {
        object: u32,
        size: u32,
    },
    /// The import library would be too long.
    LibraryLong,
    /// The items are not bound to the module.
    Unbound(BindRefusal),
    /// The modules of a session, or those that are shown in memory, are no library.
    Ungathered(LibraryRefusal),
    /// The first of the modules that are shown in memory is not loaded.
    Unloaded {
        refusal: MemoryRefusal,
        at: Option<Obstacle>,
    },
    /// The file was not saved.
    Unsaved,
}

/// A refusal, with the name that it is told under: that of a file, or of a module where no file has it.
pub struct Refused {
    pub name: String,
    pub cause: Cause,
}

// What is dropped below is dropped by a call, wherever that is. Were it derived, each variant of a cause would be a path of each
// function that drops one, and be proved there again.

impl Drop for LinkFiles {
    fn drop(self) {
        let LinkFiles { input, files } = self;
        drop(input);
        drop(files);
    }
}

impl Drop for FileFault {
    fn drop(self) {
        match self {
            FileFault::Transcript(_, expected) => drop(expected),
            FileFault::Object(_) => {}
            FileFault::Definition(_) => {}
            FileFault::Module(_) => {}
            FileFault::Session(_) => {}
            FileFault::Resources(_) => {}
        }
    }
}

impl Drop for Cause {
    fn drop(self) {
        match self {
            Cause::Faulty { fault, bytes } => {
                drop(fault);
                drop(bytes);
            }
            Cause::FaultShown {
                shown,
                fault,
                bytes,
            } => {
                drop(shown);
                drop(fault);
                drop(bytes);
            }
            Cause::Unlinked { refusal, files } => {
                drop(refusal);
                drop(files);
            }
            Cause::Imports { files } => drop(files),
            Cause::Unloaded { refusal: _, at } => drop(at),
            Cause::Absent => {}
            Cause::TooLong => {}
            Cause::Unreadable => {}
            Cause::ArenaFull { object: _, size: _ } => {}
            Cause::LibraryLong => {}
            Cause::Unbound(_) => {}
            Cause::Ungathered(_) => {}
            Cause::Unsaved => {}
        }
    }
}

impl Drop for Refused {
    fn drop(self) {
        let Refused { name, cause } = self;
        drop(name);
        drop(cause);
    }
}
