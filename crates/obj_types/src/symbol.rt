//! The names that modules define, need, import and export.

use lx_types::{EntryKey, Name, Seq};

/// What a public name stands for.
#[derive(Clone, Copy)]
pub enum PubPlace {
    In { seg: u32, offset: u32 },
    Const { value: u32 },
}

/// A public name ("90h PUBDEF"; local in "B6h LPUBDEF").
pub struct Pub {
    pub name: Name,
    pub local: bool,
    pub place: PubPlace,
}

// Dropped by a call, as lists are (`Seq`).
impl Drop for Pub {
    fn drop(self) {
        let Pub {
            name,
            local: _,
            place: _,
        } = self;
        drop(name);
    }
}

/// The public names of a module.
pub type Pubs = Seq<Pub>;

/// A communal name's storage ("B0h COMDEF").
#[derive(Clone, Copy)]
pub struct Common {
    pub far: bool,
    /// The length in bytes.
    pub len: u32,
}

/// An external name ("8Ch EXTDEF"; local in "B4h LEXTDEF"; with storage in "B0h COMDEF").
pub struct Ext {
    pub name: Name,
    pub local: bool,
    pub common: Option<Common>,
}

// Dropped by a call, as lists are (`Seq`).
impl Drop for Ext {
    fn drop(self) {
        let Ext {
            name,
            local: _,
            common: _,
        } = self;
        drop(name);
    }
}

/// The external names of a module, in one numbering.
pub type Exts = Seq<Ext>;

/// A name that another module exports ("88h COMENT", IMPDEF).
pub struct Imp {
    pub name: Name,
    pub module: Name,
    pub entry: EntryKey,
}

// Dropped by a call, as lists are (`Seq`).
impl Drop for Imp {
    fn drop(self) {
        let Imp {
            name,
            module,
            entry,
        } = self;
        drop(name);
        drop(module);
        drop(entry);
    }
}

/// The imports of a module.
pub type Imports = Seq<Imp>;

/// A name that the linked module exports ("88h COMENT", EXPDEF).
pub struct Exp {
    pub name: Name,
    pub internal: Name,
    pub ordinal: Option<u16>,
    pub resident: bool,
    pub nodata: bool,
    /// Parameter words, at most 31.
    pub words: u8,
}

// Dropped by a call, as lists are (`Seq`).
impl Drop for Exp {
    fn drop(self) {
        let Exp {
            name,
            internal,
            ordinal: _,
            resident: _,
            nodata: _,
            words: _,
        } = self;
        drop(name);
        drop(internal);
    }
}

/// The exports of a module.
pub type Exports = Seq<Exp>;
