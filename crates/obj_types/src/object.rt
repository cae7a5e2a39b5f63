//! An object module: its segments, their data and the fixups on it.

use crate::{Exports, Exts, Imports, Pubs};
use lx_types::{Bytes, Name, Names, Numbers, Seq};

/// A segment's place is fixed by its frame number.
pub const ALIGN_ABSOLUTE: u8 = 0;

pub const ALIGN_BYTE: u8 = 1;

pub const ALIGN_WORD: u8 = 2;

pub const ALIGN_PARAGRAPH: u8 = 3;

/// 4,096 bytes.
pub const ALIGN_PAGE: u8 = 4;

pub const ALIGN_DOUBLEWORD: u8 = 5;

/// Segments are not joined.
pub const COMBINE_PRIVATE: u8 = 0;

/// Segments are joined one after the other. The combine types 4 and 7 mean the same.
pub const COMBINE_PUBLIC: u8 = 2;

/// As public segments, and the stack is there.
pub const COMBINE_STACK: u8 = 5;

/// Segments lie over one another.
pub const COMBINE_COMMON: u8 = 6;

/// A contribution to a logical segment ("98h SEGDEF").
pub struct Seg {
    pub name: Name,
    pub class: Name,
    /// 0 absolute, 1 byte, 2 word, 3 paragraph, 4 4,096 bytes, 5 doubleword.
    pub align: u8,
    /// 0 private, 2, 4 and 7 public, 5 stack, 6 common.
    pub combine: u8,
    /// Whether it has 32-bit code or data (use32).
    pub wide: bool,
    /// The length in bytes.
    pub len: u32,
    /// Whether it holds a debugger's symbols or types, which are dropped.
    pub debug: bool,
}

// Dropped by a call, as lists are (`Seq`).
impl Drop for Seg {
    fn drop(self) {
        let Seg {
            name,
            class,
            align: _,
            combine: _,
            wide: _,
            len: _,
            debug: _,
        } = self;
        drop(name);
        drop(class);
    }
}

/// The segments of a module.
pub type Segs = Seq<Seg>;

/// The members of a group, as segment indices.
pub type Members = Numbers;

/// Segments that one frame reaches ("9Ah GRPDEF"). The group FLAT has no members.
pub struct Group {
    pub name: Name,
    pub members: Members,
}

// Dropped by a call, as lists are (`Seq`).
impl Drop for Group {
    fn drop(self) {
        let Group { name, members } = self;
        drop(name);
        drop(members);
    }
}

/// The groups of a module.
pub type Groups = Seq<Group>;

/// Data of a segment ("A0h LEDATA" and "A2h LIDATA", which is expanded here).
pub struct Piece {
    pub seg: u32,
    pub offset: u32,
    pub bytes: Bytes,
}

// Dropped by a call, as lists are (`Seq`).
impl Drop for Piece {
    fn drop(self) {
        let Piece {
            seg: _,
            offset: _,
            bytes,
        } = self;
        drop(bytes);
    }
}

/// The pieces of a module; a later one covers an earlier one.
pub type Pieces = Seq<Piece>;

/// From where a fixup's location is reached: the frame methods of "9Ch FIXUPP".
#[derive(Clone, Copy)]
pub enum Frame {
    Seg(u32),
    Group(u32),
    Ext(u32),
    /// The segment of the location (method 4).
    Here,
    /// The target's frame (method 5).
    OfTarget,
}

/// What a fixup refers to: the target methods of "9Ch FIXUPP".
#[derive(Clone, Copy)]
pub enum Goal {
    Seg(u32),
    Group(u32),
    Ext(u32),
}

/// A FIXUP of "9Ch FIXUPP": what is to be put at an offset of a segment.
#[derive(Clone, Copy)]
pub struct FixAt {
    pub seg: u32,
    pub offset: u32,
    /// The location's kind, from 0 to 13.
    pub loc: u8,
    /// Whether the location is self-relative.
    pub selfrel: bool,
    pub frame: Frame,
    pub goal: Goal,
    pub disp: u32,
}

/// The fixups of a module.
pub type Fixes = Seq<FixAt>;

/// The place where a program starts, or a library's initialisation ("8Ah MODEND").
#[derive(Clone, Copy)]
pub struct StartAt {
    pub frame: Frame,
    pub goal: Goal,
    pub disp: u32,
}

/// Which of several COMDATs of one name may stand for all ("C2h COMDAT", the selection criteria).
#[derive(Clone, Copy)]
pub enum Selection {
    /// There may be one only.
    NoMatch,
    /// Any of them.
    Any,
    /// Any of them, where all have one length.
    SameSize,
    /// Any of them, where all have the same bytes.
    Exact,
}

/// A segment that holds the data of one name ("C2h COMDAT"), and whose index is `seg`.
pub struct Comdat {
    pub name: Name,
    pub seg: u32,
    pub selection: Selection,
}

// Dropped by a call, as lists are (`Seq`).
impl Drop for Comdat {
    fn drop(self) {
        let Comdat {
            name,
            seg: _,
            selection: _,
        } = self;
        drop(name);
    }
}

/// The COMDATs of a module.
pub type Comdats = Seq<Comdat>;

/// An object module as its records say it.
pub struct ObjModule {
    pub name: Name,
    pub segs: Segs,
    pub groups: Groups,
    pub pubs: Pubs,
    pub exts: Exts,
    pub pieces: Pieces,
    pub fixes: Fixes,
    pub imports: Imports,
    pub exports: Exports,
    /// The names of default libraries.
    pub deflibs: Names,
    pub start: Option<StartAt>,
    pub comdats: Comdats,
}

// Dropped by a call, as lists are (`Seq`).
impl Drop for ObjModule {
    fn drop(self) {
        let ObjModule {
            name,
            segs,
            groups,
            pubs,
            exts,
            pieces,
            fixes,
            imports,
            exports,
            deflibs,
            start: _,
            comdats,
        } = self;
        drop(name);
        drop(segs);
        drop(groups);
        drop(pubs);
        drop(exts);
        drop(pieces);
        drop(fixes);
        drop(imports);
        drop(exports);
        drop(deflibs);
        drop(comdats);
    }
}
