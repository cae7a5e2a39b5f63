//! What a file says of a module, as plain data.

use crate::{Bytes, EntryHead, FixTarget, Name, Names, ObjHead, PageHead, Seq};

/// The module flags' bits that tell the kind of module.
pub const MODULE_KIND: u32 = 0x3_8000;

/// The kind of a library, of the module flags under `MODULE_KIND`; that of a program is 0.
pub const MODULE_LIBRARY: u32 = 0x8000;

/// A library's initialisation is called for each process: a bit of the module flags.
pub const MODULE_INIT_EACH: u32 = 0x0004;

/// A library's termination is called for each process.
pub const MODULE_TERM_EACH: u32 = 0x4000_0000;

/// What a file says of its module. Places are places in the file.
#[derive(Drop)]
pub struct Parts {
    pub file: Bytes,
    /// The module's name: the first entry of the resident name table.
    pub name: Name,
    /// The module flags of the header.
    pub flags: u32,
    /// The object and the offset at which the module starts.
    pub start: Option<(u32, u32)>,
    pub objects: Seq<ObjHead>,
    /// The page table, of all objects.
    pub pages: Seq<PageHead>,
    /// For each entry of the page table, where its fixup records begin and where they end.
    pub fix_spans: Seq<(u32, u32)>,
    /// The names of the modules that this one imports from.
    pub imports: Names,
    /// Where the import procedure table begins, which may be past the file's end.
    pub procs_at: u64,
    /// The entry table, by rising ordinals.
    pub entries: Seq<(u32, EntryHead)>,
    /// The entries after the first of the resident name table, then those of the non-resident one.
    pub names: Seq<(Name, u32)>,
    /// Each different import or entry-table target of the fixup records, once.
    pub refs: Seq<FixTarget>,
}
