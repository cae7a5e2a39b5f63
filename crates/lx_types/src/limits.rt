//! The numbers that bound what is read, linked and run, and the bytes of a page.
//!
//! "32-bit Linear eXecutable Module Format": "LX Header" (page size).

/// How many bytes a page has, as a length.
pub const PAGE_LEN: usize = 4096;

/// The bytes of a page.
pub type PageBytes = [u8; PAGE_LEN];

/// The most bytes of a file.
pub const MAX_FILE: u32 = 16_777_216;

/// The most objects of a module.
pub const MAX_OBJECTS: u32 = 1024;

/// The most pages of a module.
pub const MAX_PAGES: u32 = 65_536;

/// The most modules of a session.
pub const MAX_MODULES: u32 = 64;

/// The most modules of a session, as a length.
pub const MAX_MODULES_LEN: usize = MAX_MODULES as usize;

/// The most processes of a session.
pub const MAX_PROCESSES: u32 = 16;

/// The most loads of one module that a process can hold.
pub const MAX_LOADS: u32 = 65_535;

/// What the bases of objects are multiples of.
pub const BASE_UNIT: u32 = 65_536;

/// The first address at which the objects of programs stand. They end where those of libraries begin.
pub const PRIVATE_FROM: u32 = 0x0001_0000;

/// The first address at which the objects of libraries stand.
pub const SHARED_FROM: u32 = 0x1000_0000;

/// Where the addresses at which the objects of libraries stand end.
pub const SHARED_END: u32 = 0x2000_0000;
