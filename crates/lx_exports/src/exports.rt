//! What the tables of a module tell of its exports.

ghost use Rattle.std.specs.Prelude.{◌≡◌};

use lx_types::{Bytes, EntryHead, Name, Seq};

/// An export as a linker tells it: its entry point is known, and whether it was given an ordinal.
#[derive(Drop)]
pub struct OutEntry {
    pub name: Name,
    /// The ordinal that it asks for; without one it takes a free one.
    pub ordinal: Option<u16>,
    /// Whether the name of an export with an ordinal is resident. That of one without always is.
    pub resident: bool,
    /// How many parameter words its code takes, at most 31.
    pub words: u8,
    pub head: EntryHead,
    /// Whether its offset is written with 32 bits.
    pub wide: bool,
}

/// The tables of a module's exports.
#[derive(Drop)]
pub struct Tables {
    /// The resident name table.
    pub resident: Bytes,
    /// The entry table.
    pub entries: Bytes,
    /// The non-resident name table.
    pub others: Bytes,
    /// The exports' ordinals, in the order of the exports.
    pub ordinals: Seq<u16>,
}
