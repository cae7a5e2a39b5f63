//! The fields of the header: where each stands in it, in bytes, and where the header stands.
//!
//! "32-bit Linear eXecutable Module Format": "LX Header", whose names the lines before the constants give.

/// "LX", the signature.
pub const SIGNATURE: u8 = 0x00;

/// B-ORD, the byte order.
pub const BYTE_ORDER: u8 = 0x02;

/// W-ORD, the word order.
pub const WORD_ORDER: u8 = 0x03;

/// FORMAT LEVEL.
pub const FORMAT_LEVEL: u8 = 0x04;

/// CPU TYPE.
pub const CPU_TYPE: u8 = 0x08;

/// OS TYPE, the system that the module is for.
pub const SYSTEM_TYPE: u8 = 0x0A;

/// MODULE VERSION.
pub const MODULE_VERSION: u8 = 0x0C;

/// MODULE FLAGS.
pub const MODULE_FLAGS: u8 = 0x10;

/// MODULE # OF PAGES.
pub const MODULE_PAGES: u8 = 0x14;

/// EIP OBJECT #, the object in which the module starts.
pub const EIP_OBJECT: u8 = 0x18;

/// EIP, the offset at which the module starts.
pub const EIP: u8 = 0x1C;

/// ESP OBJECT #, the object of the stack.
pub const ESP_OBJECT: u8 = 0x20;

/// ESP, the offset of the stack's top.
pub const ESP: u8 = 0x24;

/// PAGE SIZE.
pub const PAGE_SIZE_FIELD: u8 = 0x28;

/// PAGE OFFSET SHIFT.
pub const PAGE_OFFSET_SHIFT: u8 = 0x2C;

/// FIXUP SECTION SIZE.
pub const FIXUP_SECTION_SIZE: u8 = 0x30;

/// FIXUP SECTION CHECKSUM.
pub const FIXUP_SECTION_CHECKSUM: u8 = 0x34;

/// LOADER SECTION SIZE.
pub const LOADER_SECTION_SIZE: u8 = 0x38;

/// LOADER SECTION CHECKSUM.
pub const LOADER_SECTION_CHECKSUM: u8 = 0x3C;

/// OBJECT TABLE OFF.
pub const OBJECT_TABLE: u8 = 0x40;

/// # OBJECTS IN MODULE.
pub const OBJECT_COUNT: u8 = 0x44;

/// OBJECT PAGE TABLE OFF.
pub const OBJECT_PAGE_TABLE: u8 = 0x48;

/// OBJECT ITER PAGES OFF, from the file's start.
pub const ITERATED_PAGES: u8 = 0x4C;

/// RESOURCE TABLE OFFSET.
pub const RESOURCE_TABLE: u8 = 0x50;

/// #RESOURCE TABLE ENTRIES.
pub const RESOURCE_COUNT: u8 = 0x54;

/// RESIDENT NAME TBL OFF.
pub const RESIDENT_NAME_TABLE: u8 = 0x58;

/// ENTRY TABLE OFFSET.
pub const ENTRY_TABLE: u8 = 0x5C;

/// MODULE DIRECTIVES OFF.
pub const MODULE_DIRECTIVES: u8 = 0x60;

/// # MODULE DIRECTIVES.
pub const DIRECTIVE_COUNT: u8 = 0x64;

/// FIXUP PAGE TABLE OFF.
pub const FIXUP_PAGE_TABLE: u8 = 0x68;

/// FIXUP RECORD TABLE OFF.
pub const FIXUP_RECORD_TABLE: u8 = 0x6C;

/// IMPORT MODULE TBL OFF.
pub const IMPORT_MODULE_TABLE: u8 = 0x70;

/// # IMPORT MOD ENTRIES.
pub const IMPORT_MODULE_COUNT: u8 = 0x74;

/// IMPORT PROC TBL OFF.
pub const IMPORT_PROCEDURE_TABLE: u8 = 0x78;

/// PER-PAGE CHECKSUM OFF.
pub const PAGE_CHECKSUMS: u8 = 0x7C;

/// DATA PAGES OFFSET, from the file's start.
pub const DATA_PAGES: u8 = 0x80;

/// #PRELOAD PAGES.
pub const PRELOAD_PAGES: u8 = 0x84;

/// NON-RES NAME TBL OFF, from the file's start.
pub const NONRESIDENT_NAME_TABLE: u8 = 0x88;

/// NON-RES NAME TBL LEN, in bytes.
pub const NONRESIDENT_NAME_LENGTH: u8 = 0x8C;

/// NON-RES NAME TBL CKSM.
pub const NONRESIDENT_NAME_CHECKSUM: u8 = 0x90;

/// AUTO DS OBJECT #, the object of the automatic data segment.
pub const AUTO_DATA_OBJECT: u8 = 0x94;

/// DEBUG INFO OFF.
pub const DEBUG_INFORMATION: u8 = 0x98;

/// DEBUG INFO LEN.
pub const DEBUG_LENGTH: u8 = 0x9C;

/// #INSTANCE PRELOAD.
pub const INSTANCE_PRELOAD_PAGES: u8 = 0xA0;

/// #INSTANCE DEMAND.
pub const INSTANCE_DEMAND_PAGES: u8 = 0xA4;

/// HEAPSIZE.
pub const HEAP_SIZE: u8 = 0xA8;

/// `LX`, as a word.
pub const LX_SIGNATURE: u16 = 0x584C;

/// Where a DOS program says in a doubleword where the header stands.
pub const HEADER_PLACE: usize = 0x3C;
