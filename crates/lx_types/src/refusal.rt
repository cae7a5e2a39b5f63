//! Why a file is no LX module.

/// What is wrong with a file.
#[derive(Clone, Copy)]
pub enum LxKind {
    /// `LX` does not stand at the header's place.
    Signature,
    /// A field passes the end of what it stands in, or a group the end of its page's data.
    Short,
    /// A header field has a value that is not allowed.
    Field,
    /// There are more pages or objects than a module may have.
    TooMany,
    /// An object's pages are not in the page table.
    Object,
    /// A page's flags are over 3.
    PageKind,
    /// A page's data is not within the file, or plain data is longer than a page.
    PageData,
    /// Iterated data gives more than a page.
    TooLong,
    /// The resident name table has no first entry.
    NameTable,
    /// An import module has an empty name.
    ImportTable,
    /// A bundle or a forwarder of the entry table is not allowed.
    EntryTable,
    /// The fixup page table's offsets fall, or lead past the file's end.
    FixTable,
    /// A fixup record's source or flags are not allowed.
    BadSource,
    /// A fixup's target is out of range.
    BadTarget,
    /// A fixup's source has no byte in its page.
    Straddle,
}

/// The first fault of a file: what it is, and its place in the file.
#[derive(Clone, Copy)]
pub struct LxRefusal {
    pub at: u64,
    pub kind: LxKind,
}
