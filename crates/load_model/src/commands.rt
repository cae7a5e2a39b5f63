//! What a process can ask for, and what it is answered.

ghost use Rattle.std.specs.Prelude.{◌↔◌, IsTrue};
ghost use Rattle.load_model.specs.Places.{LiesInPage};

use crate::deeds::How;
use lx_types::{Bytes, EntryKey, Name, PAGE_SIZE, PageId, ResSpot};

/// `len` bytes of an object of a module, from `offset` on. Objects count from 1.
pub struct Place {
    pub module: Name,
    pub object: u32,
    pub offset: u32,
    pub len: u32,
}

impl Drop for Place {
    fn drop(self) {
        let Place {
            module,
            object: _,
            offset: _,
            len: _,
        } = self;
        drop(module);
    }
}

impl Place {
    /// Whether its bytes lie in one page: it crosses no multiple of 4,096.
    pub fn lies_in_page(&self) -> bool
        ensures { IsTrue result ↔ LiesInPage self.now }
    {
        self.len <= PAGE_SIZE - self.offset % PAGE_SIZE
    }
}

/// A command of a process.
pub enum Command {
    /// Starts a program.
    Start(Name),
    /// Loads a library (DosLoadModule).
    Load(Name),
    /// Gives up one load of a library (DosFreeModule).
    Free(Name),
    /// Makes the pages of a place present.
    Touch(Place),
    /// Reads bytes of code or of the process's own data.
    Peek(Place),
    /// Reads bytes that all processes share.
    Shared(Place),
    /// Writes bytes. There are as many as the place is long.
    Write(Place, Bytes),
    /// Writes bytes to the process's own copy of code (DosDebug).
    Debug(Place, Bytes),
    /// Asks for the address of an entry point (DosQueryProcAddr).
    Query(Name, EntryKey),
    /// Asks where the resource of a type and an identifier lies (DosGetResource).
    GetRes(Name, u16, u16),
    /// Ends the process (DosExit).
    Exit,
}

// Dropped by a call, as lists are (`Seq`).
impl Drop for Command {
    fn drop(self) {
        match self {
            Command::Start(name) | Command::Load(name) | Command::Free(name) => drop(name),
            Command::Touch(place) | Command::Peek(place) | Command::Shared(place) => drop(place),
            Command::Write(place, bytes) | Command::Debug(place, bytes) => {
                drop(place);
                drop(bytes);
            }
            Command::Query(name, key) => {
                drop(name);
                drop(key);
            }
            Command::GetRes(name, _, _) => drop(name),
            Command::Exit => {}
        }
    }
}

/// What a command that has an entry asks of the loader. A residence is asked for by its serial number and its module.
#[derive(Drop)]
pub enum Ask {
    /// Starts a program or loads a library.
    Enter {
        how: How,
        module: u32,
    },
    /// Gives up one load of a module.
    Free {
        module: u32,
    },
    /// Ends the process.
    Exit,
    /// Claims a page, which has its fault then.
    Fault {
        serial: u64,
        module: u32,
        page: PageId,
    },
    /// Writes bytes to private or shared data.
    Write {
        serial: u64,
        module: u32,
        object: u32,
        offset: u32,
        bytes: Bytes,
    },
    /// Writes bytes to code, for the process alone.
    Debug {
        serial: u64,
        module: u32,
        object: u32,
        offset: u32,
        bytes: Bytes,
    },
    /// Reads bytes that all processes share.
    Shared {
        serial: u64,
        module: u32,
        object: u32,
        offset: u32,
        len: u32,
    },
}

/// Why a command was refused.
#[derive(Clone, Copy)]
pub enum Refusal {
    /// The process has ended.
    Ended,
    /// The process has drawn too many turns.
    Worn,
    /// The process has started a program before.
    Started,
    /// No module has the name, or a name of an import table means no library.
    NoModule,
    NotLibrary,
    NotProgram,
    /// The key, or a fixup's target, names no entry.
    NoEntry,
    /// Forwarders lead back to where they came from.
    ForwardLoop,
    /// The entry is a call gate of the 80286.
    Gate286,
    /// The process has 65,535 loads of the module.
    CountFull,
    /// Object `object` of module `of`, of `size` bytes, has no place; entry `number` of the history
    /// says so.
    ArenaFull {
        number: u64,
        of: u32,
        object: u32,
        size: u32,
    },
    /// The initialisation of module `by` failed; entry `number` of the history says so.
    InitFailed {
        number: u64,
        by: u32,
    },
    /// The process has no load of the module.
    NotHeld,
    /// The process does not reach the module.
    NotAttached,
    /// There is no such object, or the place passes its end.
    Range,
    /// The object is code.
    ReadOnly,
    /// The object is shared.
    IsShared,
    /// The object is not shared.
    NotShared,
    /// The object is not code.
    NotCode,
    /// The place covers an invalid page.
    Invalid,
    /// The first page of the place, from 0 in its object, that the process has not touched since it
    /// attached the module.
    NotTouched {
        page: u32,
    },
    /// The module has no resource of the type and the identifier.
    NoResource,
}

/// What a command without an entry is answered.
pub enum Reply {
    /// A place was touched.
    Fine,
    Bytes(Bytes),
    Address(u32),
    Spot(ResSpot),
    Refused(Refusal),
}

// Dropped by a call, as lists are (`Seq`).
impl Drop for Reply {
    fn drop(self) {
        match self {
            Reply::Bytes(it) => drop(it),
            Reply::Fine | Reply::Address(_) | Reply::Spot(_) | Reply::Refused(_) => {}
        }
    }
}
