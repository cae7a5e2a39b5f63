//! Why a link is refused.

use lx_types::Name;
use std::fmt::{self, Debug, Display, Formatter, Write};
use thiserror::Error;

/// Why the names of a link have no meaning. Modules count from 1; 0 is the definition file.
#[derive(Drop, Error)]
pub enum SymRefusal {
    #[error("a name is defined in modules {first} and {second}")]
    Twice { name: Name, first: u32, second: u32 },
    #[error("a name has no definition")]
    Missing { name: Name },
    #[error("{count} modules are imported")]
    ImportsMany { count: u32 },
}

/// Why the COMDATs of a link are not one for each name. Modules count from 1.
#[derive(Drop, Error)]
pub enum ComdatRefusal {
    /// That of `second` may not stand for that of `first`, which stays.
    #[error("modules {first} and {second} have a COMDAT of one name")]
    Clash { name: Name, first: u32, second: u32 },
}

/// Why the segments of a link have no layout.
#[derive(Drop, Error)]
pub enum LayRefusal {
    #[error("a segment is absolute")]
    AbsoluteSeg { seg: Name },
    #[error("a segment is joined with 16-bit and 32-bit ones")]
    UseMixed { seg: Name },
    #[error("a group's segments can't be one object")]
    GroupSplit { group: Name },
    #[error("a segment has no room")]
    TooLarge { seg: Name },
}

/// Why a fixup has no value, by its chosen module, segment and offset.
#[derive(Clone, Copy, Error)]
pub enum FixRefusal {
    #[error("module {module} segment {seg} offset {offset}: the target is too far")]
    FarSelf { module: u32, seg: u32, offset: u32 },
    #[error("module {module} segment {seg} offset {offset}: the frame is in another object")]
    FrameApart { module: u32, seg: u32, offset: u32 },
    #[error("module {module} segment {seg} offset {offset}: a constant has no selector")]
    ConstSelector { module: u32, seg: u32, offset: u32 },
    #[error("module {module}: the start address is in no object")]
    StartOutside { module: u32 },
}

/// Why the exports of a link have no place in the entry table and the name tables.
#[derive(Drop, Error)]
pub enum EntryRefusal {
    #[error("ordinal {n} is given twice or is none")]
    Ordinal { n: u32 },
    #[error("two exports have one name")]
    NameTwice { name: Name },
}

/// Why an input is not linked. The kinds are tried in this order.
#[derive(Drop, Error)]
pub enum LinkRefusal {
    #[error("{0}")]
    Sym(SymRefusal),
    #[error("{0}")]
    Comdat(ComdatRefusal),
    #[error("{0}")]
    Lay(LayRefusal),
    #[error("{0}")]
    Fixing(FixRefusal),
    #[error("{0}")]
    Entry(EntryRefusal),
}

// One text is proved of an error, and not two.
impl Debug for SymRefusal {
    fn fmt<W: Write>(&self, f: &mut Formatter<W>) -> fmt::Result {
        Display::fmt(self, f)
    }
}

impl Debug for ComdatRefusal {
    fn fmt<W: Write>(&self, f: &mut Formatter<W>) -> fmt::Result {
        Display::fmt(self, f)
    }
}

impl Debug for LayRefusal {
    fn fmt<W: Write>(&self, f: &mut Formatter<W>) -> fmt::Result {
        Display::fmt(self, f)
    }
}

impl Debug for FixRefusal {
    fn fmt<W: Write>(&self, f: &mut Formatter<W>) -> fmt::Result {
        Display::fmt(self, f)
    }
}

impl Debug for EntryRefusal {
    fn fmt<W: Write>(&self, f: &mut Formatter<W>) -> fmt::Result {
        Display::fmt(self, f)
    }
}

impl Debug for LinkRefusal {
    fn fmt<W: Write>(&self, f: &mut Formatter<W>) -> fmt::Result {
        Display::fmt(self, f)
    }
}
