//! Objects and their pages: the entries of the object table and of the object page table.
//!
//! "32-bit Linear eXecutable Module Format": "Object Table", "Object Page Table".

ghost use Rattle.std.specs.Prelude.{◌≡◌};
ghost use Rattle.lx_types.specs.Object.{class_of};

/// The object may be read: a bit of an object's flags, as are those that follow.
pub const OBJECT_READABLE: u32 = 0x0001;

/// The object may be written to.
pub const OBJECT_WRITABLE: u32 = 0x0002;

/// The object may be executed.
pub const OBJECT_EXECUTABLE: u32 = 0x0004;

/// All processes share one copy of the object.
pub const OBJECT_SHARED: u32 = 0x0020;

/// The object's pages are to be loaded with the module.
pub const OBJECT_PRELOAD: u32 = 0x0040;

/// Selectors of the object are tiled: a 16:16 alias is to be made for it.
pub const OBJECT_ALIAS: u32 = 0x1000;

/// The object is "big": its code or data is 32-bit.
pub const OBJECT_BIG: u32 = 0x2000;

/// The object's code segment is conforming.
pub const OBJECT_CONFORMING: u32 = 0x4000;

/// The object has I/O privilege.
pub const OBJECT_IOPL: u32 = 0x8000;

/// How many bytes a page has.
pub const PAGE_SIZE: u32 = 4096;

/// A page of a module: objects count from 1, pages from 0 within the object.
#[derive(Clone, Copy)]
pub struct PageId {
    pub object: u32,
    pub page: u32,
}

/// An entry of the object table. Its pages are the entries `first` to `first + count - 1` of the
/// page table, which counts from 1.
#[derive(Clone, Copy)]
pub struct ObjHead {
    pub size: u32,
    pub base: u32,
    pub flags: u32,
    pub first: u32,
    pub count: u32,
}

/// Who sees a write to an object.
#[derive(Clone, Copy)]
pub enum Class {
    /// Nobody can write to it.
    Code,
    /// Each process has writes of its own.
    Private,
    /// All processes see one copy.
    Shared,
}

impl ObjHead {
    /// Not writable is `Code`, writable and unshared `Private`, writable and shared `Shared`.
    pub fn class(&self) -> Class
        ensures { result ≡ class_of self.now }
    {
        if self.flags & OBJECT_WRITABLE == 0 {
            Class::Code
        } else if self.flags & OBJECT_SHARED == 0 {
            Class::Private
        } else {
            Class::Shared
        }
    }
}

/// What a page's data is.
#[derive(Clone, Copy)]
pub enum PageKind {
    /// The page's bytes, and zeros after them.
    Plain,
    /// Groups of repeated bytes.
    Iterated,
    /// A page that cannot be reached.
    Invalid,
    /// Zeros.
    Zero,
}

/// An entry of the object page table: its data is `len` bytes at `at`.
///
/// In a module `at` is a place in the file. Both numbers are 0 for a page without data there.
#[derive(Clone, Copy)]
pub struct PageHead {
    pub kind: PageKind,
    pub at: u32,
    pub len: u32,
}
