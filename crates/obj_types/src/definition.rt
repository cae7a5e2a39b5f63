//! What a module definition file says.

ghost use Rattle.std.specs.Prelude.{◌≡◌};

use crate::{Exports, Imports};
use lx_types::{Name, Seq};
use std::alloc::Global;

/// The attributes of a segment.
#[derive(Clone, Copy)]
pub struct Attrs {
    pub read: bool,
    pub write: bool,
    pub exec: bool,
    pub shared: bool,
    pub preload: bool,
    pub conforming: bool,
    pub iopl: bool,
}

impl Attrs {
    /// Those of CODE where a definition file says nothing of them: read and execute.
    pub const CODE: Attrs = Attrs {
        read: true,
        write: false,
        exec: true,
        shared: false,
        preload: false,
        conforming: false,
        iopl: false,
    };

    /// Those of DATA where a definition file says nothing of them: read and write.
    pub const DATA: Attrs = Attrs {
        read: true,
        write: true,
        exec: false,
        shared: false,
        preload: false,
        conforming: false,
        iopl: false,
    };
}

/// An item of SEGMENTS. One without a class is for every class.
pub struct SegAttrs {
    pub name: Name,
    pub class: Option<Name>,
    pub attrs: Attrs,
}

// Dropped by a call, as lists are (`Seq`).
impl Drop for SegAttrs {
    fn drop(self) {
        let SegAttrs {
            name,
            class,
            attrs: _,
        } = self;
        drop(name);
        drop(class);
    }
}

/// The items of SEGMENTS.
pub type SegRules = Seq<SegAttrs>;

/// Whether a program or a library is linked.
#[derive(Clone, Copy)]
pub enum ModKind {
    Program,
    Library,
}

/// A module definition file.
pub struct DefFile {
    pub kind: ModKind,
    pub name: Option<Name>,
    /// Whether a library is initialised once for each process.
    pub init_each: bool,
    /// Whether a library is ended once for each process.
    pub term_each: bool,
    /// The text of DESCRIPTION.
    pub about: Name,
    pub stack: u32,
    pub heap: u32,
    pub base: Option<u32>,
    /// The attributes of CODE.
    pub code: Attrs,
    /// The attributes of DATA.
    pub plain: Attrs,
    pub segs: SegRules,
    pub exports: Exports,
    pub imports: Imports,
}

// Dropped by a call, as lists are (`Seq`).
impl Drop for DefFile {
    fn drop(self) {
        let DefFile {
            kind: _,
            name,
            init_each: _,
            term_each: _,
            about,
            stack: _,
            heap: _,
            base: _,
            code: _,
            plain: _,
            segs,
            exports,
            imports,
        } = self;
        drop(name);
        drop(about);
        drop(segs);
        drop(exports);
        drop(imports);
    }
}

impl DefFile {
    ghost use Rattle.obj_types.specs.Defaults.{default_def};

    /// The definition file that says nothing but the kind of module and its base. It takes no memory.
    pub fn empty(alloc: Global, kind: ModKind, base: Option<u32>) -> DefFile
        ensures { result ≡ default_def kind base }
    {
        DefFile {
            kind,
            name: None,
            init_each: false,
            term_each: false,
            about: Name::empty(alloc),
            stack: 0,
            heap: 0,
            base,
            code: Attrs::CODE,
            plain: Attrs::DATA,
            segs: Seq::new(alloc),
            exports: Seq::new(alloc),
            imports: Seq::new(alloc),
        }
    }
}
