//! What the statements so far say, and what may stand next.

use lx_types::{Name, Seq};
use obj_types::{Exp, Exports, Imports, ModKind};

/// The words of a list of attributes: of each pair, whether its setting word or the other stands
/// there.
#[derive(Clone, Copy)]
pub struct Words {
    pub write: Option<bool>,
    pub read: Option<bool>,
    pub shared: Option<bool>,
    pub preload: Option<bool>,
    pub conforming: Option<bool>,
    pub iopl: Option<bool>,
}

impl Words {
    pub const NONE: Words = Words {
        write: None,
        read: None,
        shared: None,
        preload: None,
        conforming: None,
        iopl: None,
    };
}

/// An item of SEGMENTS, as it is written.
#[derive(Drop)]
pub struct SegDraft {
    pub name: Name,
    pub class: Option<Name>,
    pub words: Words,
}

/// What the statements so far say.
#[derive(Drop)]
pub struct Draft {
    pub kind: Option<ModKind>,
    pub name: Option<Name>,
    pub init_each: Option<bool>,
    pub term_each: Option<bool>,
    pub about: Option<Name>,
    pub stack: Option<u32>,
    pub heap: Option<u32>,
    pub base: Option<u32>,
    pub code: Option<Words>,
    pub plain: Option<Words>,
    pub segs: Seq<SegDraft>,
    pub exports: Exports,
    pub imports: Imports,
}

/// What has a list of attributes.
#[derive(Drop)]
pub enum Owner {
    Code,
    Data,
    Segment { name: Name, class: Option<Name> },
}

/// The statements that give one number.
#[derive(Clone, Copy)]
pub enum Size {
    Stack,
    Heap,
    Base,
}

/// The parts of an item of EXPORTS that may end it.
#[derive(Clone, Copy)]
pub enum Part {
    Name,
    Internal,
    Ordinal,
    Resident,
    NoData,
}

/// What the next token stands after.
#[derive(Drop)]
pub enum Place {
    /// A whole statement, or none.
    Statement,
    /// NAME.
    Program,
    /// NAME and a name.
    ProgramName,
    /// LIBRARY.
    Library,
    /// LIBRARY, and what it may have.
    LibraryWords,
    Description,
    /// A list of attributes, also an empty one.
    Attributes {
        of: Owner,
        words: Words,
    },
    /// SEGMENTS and whole items.
    Segments,
    /// The name of an item of SEGMENTS.
    Segment {
        name: Name,
    },
    /// CLASS.
    Class {
        name: Name,
    },
    /// EXPORTS and whole items.
    Exports,
    /// A part of an item of EXPORTS.
    Export {
        item: Exp,
        part: Part,
    },
    /// `=` in such an item.
    Internal {
        item: Exp,
    },
    /// `@` in such an item.
    Ordinal {
        item: Exp,
    },
    /// IMPORTS and whole items.
    Imports,
    /// The first name of an item of IMPORTS.
    Import {
        name: Name,
    },
    /// `=` in such an item.
    ImportEquals {
        internal: Name,
    },
    /// The module's name after `=`.
    ImportModule {
        internal: Name,
        module: Name,
    },
    /// `.` in such an item.
    ImportDot {
        internal: Option<Name>,
        module: Name,
    },
    /// STACKSIZE, HEAPSIZE, or BASE and `=`.
    Size(Size),
    Base,
    ExeType,
}

/// A file that is read up to a place.
#[derive(Drop)]
pub struct Reading {
    pub draft: Draft,
    pub place: Place,
}
