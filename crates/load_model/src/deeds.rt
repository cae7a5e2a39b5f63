//! What stands in a history: what processes did, in the order in which the loader did it.

use lx_types::{Bytes, Numbers, PageId, Seq};

/// Whether a program is started (DosExecPgm) or a library loaded (DosLoadModule).
#[derive(Clone, Copy)]
pub enum How {
    Start,
    Load,
}

/// Which entry point of a module is called.
#[derive(Clone, Copy)]
pub enum CallKind {
    /// A library's initialisation.
    Init,
    /// A library's termination.
    Term,
    /// A program's start address.
    Main,
}

/// A call of a module's start address, for the process of the entry. Modules count from 0.
#[derive(Clone, Copy)]
pub struct Call {
    pub kind: CallKind,
    pub serial: u64,
    pub module: u32,
    pub address: u32,
}

/// The calls of an entry, in their order.
pub type Calls = Seq<Call>;

/// A residence that begins, with the bases of the module's objects in their order.
#[derive(Drop)]
pub struct Fresh {
    pub serial: u64,
    pub module: u32,
    pub bases: Numbers,
}

/// The residences that begin, in their order.
pub type Newcomers = Seq<Fresh>;

/// A residence that ends.
#[derive(Clone, Copy)]
pub struct Gone {
    pub serial: u64,
    pub module: u32,
}

/// The residences that end, in their order.
pub type Leavers = Seq<Gone>;

/// What one process did in one step.
pub enum Deed {
    /// A program was started or a library loaded.
    Enter {
        how: How,
        module: u32,
        fresh: Newcomers,
        calls: Calls,
    },
    /// It was not, since an object of module `of`, of `size` bytes, has no place.
    Full {
        how: How,
        module: u32,
        of: u32,
        object: u32,
        size: u32,
    },
    /// It was not, since the initialisation of module `by` failed: what began with it has ended.
    Failed {
        how: How,
        module: u32,
        by: u32,
        fresh: Newcomers,
        calls: Calls,
        gone: Leavers,
    },
    /// One load of a module was given up (DosFreeModule).
    Free {
        module: u32,
        calls: Calls,
        gone: Leavers,
    },
    /// The process ended.
    Exit {
        calls: Calls,
        gone: Leavers,
    },
    /// A page of a residence was touched for the first time.
    Fault {
        serial: u64,
        module: u32,
        page: PageId,
    },
    /// Bytes were written.
    Write {
        serial: u64,
        module: u32,
        object: u32,
        offset: u32,
        bytes: Bytes,
    },
    /// Bytes of code were written, for this process alone.
    Debug {
        serial: u64,
        module: u32,
        object: u32,
        offset: u32,
        bytes: Bytes,
    },
    /// Bytes of a shared object were read.
    Shared {
        serial: u64,
        module: u32,
        object: u32,
        offset: u32,
        bytes: Bytes,
    },
}

// Dropped by a call, as lists are (`Seq`).
impl Drop for Deed {
    fn drop(self) {
        match self {
            Deed::Enter {
                how: _,
                module: _,
                fresh,
                calls,
            } => {
                drop(fresh);
                drop(calls);
            }
            Deed::Failed {
                how: _,
                module: _,
                by: _,
                fresh,
                calls,
                gone,
            } => {
                drop(fresh);
                drop(calls);
                drop(gone);
            }
            Deed::Free {
                module: _,
                calls,
                gone,
            } => {
                drop(calls);
                drop(gone);
            }
            Deed::Exit { calls, gone } => {
                drop(calls);
                drop(gone);
            }
            Deed::Write {
                serial: _,
                module: _,
                object: _,
                offset: _,
                bytes,
            }
            | Deed::Debug {
                serial: _,
                module: _,
                object: _,
                offset: _,
                bytes,
            }
            | Deed::Shared {
                serial: _,
                module: _,
                object: _,
                offset: _,
                bytes,
            } => drop(bytes),
            Deed::Full {
                how: _,
                module: _,
                of: _,
                object: _,
                size: _,
            }
            | Deed::Fault {
                serial: _,
                module: _,
                page: _,
            } => {}
        }
    }
}

/// An entry of a history. Processes count from 1 to 16.
#[derive(Drop)]
pub struct Entry {
    pub pid: u32,
    pub deed: Deed,
}

/// Entries, the oldest first; the oldest has the number 1.
pub type History = Seq<Entry>;
