//! Fixups: which field of a page gets which address.
//!
//! "32-bit Linear eXecutable Module Format": "Fixup Record Table".

/// What a field gets. Far fields end with a selector.
#[derive(Clone, Copy)]
pub enum Source {
    /// The low byte of the address.
    Byte,
    /// A selector.
    Sel,
    /// A 16-bit offset and a selector.
    Far16,
    /// A 16-bit offset.
    Off16,
    /// A 32-bit offset and a selector.
    Far32,
    /// A 32-bit offset.
    Off32,
    /// A 32-bit offset, counted from the end of the field.
    Self32,
}

/// Where the address comes from. Objects and imports count from 1.
#[derive(Clone, Copy, PartialEq, Eq, Hash)]
pub enum FixTarget {
    Internal { object: u32, offset: u32 },
    Ordinal { import: u32, ordinal: u32 },
    /// The name's offset in the import procedure table.
    Named { import: u32, name_at: u32 },
    /// An ordinal of the module's own entry table.
    Own { ordinal: u32 },
}

/// One source of a fixup record.
#[derive(Clone, Copy)]
pub struct Fix {
    pub source: Source,
    /// The selector is that of the 16:16 alias.
    pub alias: bool,
    /// Where the field begins within the page. It is negative where the field began in the page
    /// before.
    pub offset: i32,
    pub target: FixTarget,
    /// What is added to the target's address.
    pub additive: u32,
}
