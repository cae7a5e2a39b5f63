//! What the rules of linking answer.

/// A module that a link chose: one of the object files or of the libraries, by its place there.
#[derive(Clone, Copy)]
pub struct Pick {
    pub lib: bool,
    /// Counts from 0.
    pub index: u32,
}

/// What a name means in a link. Modules and segments count from 1, slots from 0.
#[derive(Clone, Copy)]
pub enum SymDef {
    /// A place in a contribution.
    In { module: u32, seg: u32, offset: u32 },
    /// A number.
    Const { value: u32 },
    /// A communal name's block.
    Common { slot: u32 },
    /// An entry point of another module.
    Import { slot: u32 },
}

/// An object of the linked module, of at most 16 MiB.
#[derive(Clone, Copy)]
pub struct LaidObject {
    pub size: u32,
    /// The linked base address.
    pub base: u32,
    /// The flags. ("32-bit Linear eXecutable Module Format": "Object Table".)
    pub flags: u32,
}
