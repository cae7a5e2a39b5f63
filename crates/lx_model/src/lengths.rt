//! How long the header and the entries of tables are.

/// How many bytes a header has that is written ("LX Header").
pub const HEADER_LEN: usize = 0xC4;

/// How many bytes an entry of the object table has ("Object Table").
pub const OBJECT_ENTRY_LEN: usize = 24;

/// How many bytes an entry of the object page table has ("Object Page Table").
pub const PAGE_ENTRY_LEN: usize = 8;

/// How many bytes an entry of the resource table has ("Resource Table").
pub const RESOURCE_ENTRY_LEN: usize = 14;
