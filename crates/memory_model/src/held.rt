//! What is in memory of a module, and why nothing is.

use lx_types::{Bytes, Name, Seq};

/// What a page of an object holds.
#[derive(Drop)]
pub enum PageMemory {
    /// Nothing: the page is invalid.
    Invalid,
    /// Its bytes with its fixups, up to the end of the page or of the object.
    Held(Bytes),
}

/// An object in memory: its number in its module, from 1, its base, its size in bytes, its flags, and its pages in order.
#[derive(Drop)]
pub struct ObjectMemory {
    pub number: u32,
    pub base: u32,
    pub size: u32,
    pub flags: u32,
    pub pages: Seq<PageMemory>,
}

/// A module in memory: its name, and its objects in order.
#[derive(Drop)]
pub struct ModuleMemory {
    pub name: Name,
    pub objects: Seq<ObjectMemory>,
}

/// Why a module, and all that it reaches, is not in memory. Modules count from 0, objects from 1. The kinds are tried in this
/// order.
#[derive(Clone, Copy)]
pub enum MemoryRefusal {
    /// A name of an import table means no library.
    NoModule,
    /// A fixup's target names no entry.
    NoEntry,
    /// Forwarders lead from a fixup's target back to where they came from.
    ForwardLoop,
    /// A fixup's target is a call gate of the 80286.
    Gate286,
    /// Object `object` of module `of`, of `size` bytes, has no place.
    ArenaFull { of: u32, object: u32, size: u32 },
}
