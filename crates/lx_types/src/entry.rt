//! Entry points: how one is asked for, and what the entry table has for it.
//!
//! "32-bit Linear eXecutable Module Format": "Entry Table", "Resident or Non-resident Name Table Entry".

use crate::Name;

/// How an entry point is asked for.
pub enum EntryKey {
    Ordinal(u32),
    Named(Name),
}

// Dropped by a call, as lists are (`Seq`).
impl Drop for EntryKey {
    fn drop(self) {
        match self {
            EntryKey::Ordinal(_) => {}
            EntryKey::Named(name) => drop(name),
        }
    }
}

/// How a forwarder asks for the entry point that it stands for.
#[derive(Clone, Copy)]
pub enum FwdKey {
    Ordinal(u32),
    /// The name's offset in the import procedure table.
    NameAt(u32),
}

/// What an ordinal stands for. Objects and imports count from 1.
#[derive(Clone, Copy)]
pub enum EntryHead {
    At { object: u32, offset: u32 },
    /// A call gate of the 80286: it is read, and a reference to it is refused.
    Gate286 { object: u32, offset: u32 },
    /// An entry point of another module, that number `import` of the import modules names.
    Forward { import: u32, key: FwdKey },
}
