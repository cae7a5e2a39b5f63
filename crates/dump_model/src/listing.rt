//! The lists of a module, as a dump tells them.

use lx_types::{EntryHead, Fix, Name, Names, PageKind, Seq};

/// A page: what its data is, where the data stands in the file and how long it is, and its fixups in the order of their
/// records. Both numbers are 0 for a page that is neither plain nor iterated.
#[derive(Drop)]
pub struct ListedPage {
    pub kind: PageKind,
    pub at: u32,
    pub len: u32,
    pub fixes: Seq<Fix>,
}

/// An object, with all of the pages that its entry counts, also those past its size.
#[derive(Drop)]
pub struct ListedObject {
    pub size: u32,
    pub base: u32,
    pub flags: u32,
    pub pages: Seq<ListedPage>,
}

/// The lists of a module.
#[derive(Drop)]
pub struct Listing {
    pub name: Name,
    /// The module is a library, and no program.
    pub library: bool,
    /// The module flags of the header.
    pub flags: u32,
    /// The object and the offset at which the module starts.
    pub start: Option<(u32, u32)>,
    pub objects: Seq<ListedObject>,
    /// The names of the modules that this one imports from.
    pub imports: Names,
    /// The entry table: each ordinal, and what it stands for.
    pub entries: Seq<(u32, EntryHead)>,
    /// The names of entry points, with their ordinals.
    pub names: Seq<(Name, u32)>,
}

/// Bytes are no dump. Lines count from 1, and the last may lack its end.
///
/// `line` is the first line with which, and with those before it, no dump begins. Where a dump begins with all of the
/// bytes, it is the line after the last.
#[derive(Clone, Copy)]
pub struct DumpRefusal {
    pub line: u32,
}
