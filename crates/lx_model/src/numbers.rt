//! The numbers of the format, written out. The definitions name them as the code does, so these laws alone
//! refuse a wrong one.
//!
//! "32-bit Linear eXecutable Module Format": "LX Header", "Object Table", "Object Page Table",
//! "Resource Table", "Fixup Record Table", "Entry Table", "Iterated Data".

ghost use Rattle.std.specs.Prelude.{◌≡◌};

use crate::header_fields::{
    AUTO_DATA_OBJECT, BYTE_ORDER, CPU_TYPE, DATA_PAGES, DEBUG_INFORMATION, DEBUG_LENGTH,
    DIRECTIVE_COUNT, EIP, EIP_OBJECT, ENTRY_TABLE, ESP, ESP_OBJECT, FIXUP_PAGE_TABLE,
    FIXUP_RECORD_TABLE, FIXUP_SECTION_CHECKSUM, FIXUP_SECTION_SIZE, FORMAT_LEVEL, HEADER_PLACE,
    HEAP_SIZE, IMPORT_MODULE_COUNT, IMPORT_MODULE_TABLE, IMPORT_PROCEDURE_TABLE,
    INSTANCE_DEMAND_PAGES, INSTANCE_PRELOAD_PAGES, ITERATED_PAGES, LOADER_SECTION_CHECKSUM,
    LOADER_SECTION_SIZE, LX_SIGNATURE, MODULE_DIRECTIVES, MODULE_FLAGS, MODULE_PAGES,
    MODULE_VERSION, NONRESIDENT_NAME_CHECKSUM, NONRESIDENT_NAME_LENGTH, NONRESIDENT_NAME_TABLE,
    OBJECT_COUNT, OBJECT_PAGE_TABLE, OBJECT_TABLE, PAGE_CHECKSUMS, PAGE_OFFSET_SHIFT,
    PAGE_SIZE_FIELD, PRELOAD_PAGES, RESIDENT_NAME_TABLE, RESOURCE_COUNT, RESOURCE_TABLE, SIGNATURE,
    SYSTEM_TYPE, WORD_ORDER,
};
use crate::lengths::{HEADER_LEN, OBJECT_ENTRY_LEN, PAGE_ENTRY_LEN, RESOURCE_ENTRY_LEN};
use crate::limits::{LONG_RUN, MAX_ENTRIES, MAX_ORDINAL};
use crate::record_fields::{
    ADDITIVE, ALIAS, BYTE_ORDINAL, CHAIN, LISTED, MAX_LISTED, WIDE_ADDITIVE, WIDE_NUMBER,
    WIDE_TARGET,
};

/// A law: where each field of the header stands, what the signature is, and where a DOS program tells the header's place.
pub fn header_fields_are()
    ensures signature { SIGNATURE ≡ 0x00 }
    ensures byte_order { BYTE_ORDER ≡ 0x02 }
    ensures word_order { WORD_ORDER ≡ 0x03 }
    ensures format_level { FORMAT_LEVEL ≡ 0x04 }
    ensures cpu_type { CPU_TYPE ≡ 0x08 }
    ensures system_type { SYSTEM_TYPE ≡ 0x0A }
    ensures module_version { MODULE_VERSION ≡ 0x0C }
    ensures module_flags { MODULE_FLAGS ≡ 0x10 }
    ensures module_pages { MODULE_PAGES ≡ 0x14 }
    ensures eip_object { EIP_OBJECT ≡ 0x18 }
    ensures eip { EIP ≡ 0x1C }
    ensures esp_object { ESP_OBJECT ≡ 0x20 }
    ensures esp { ESP ≡ 0x24 }
    ensures page_size_field { PAGE_SIZE_FIELD ≡ 0x28 }
    ensures page_offset_shift { PAGE_OFFSET_SHIFT ≡ 0x2C }
    ensures fixup_section_size { FIXUP_SECTION_SIZE ≡ 0x30 }
    ensures fixup_section_checksum { FIXUP_SECTION_CHECKSUM ≡ 0x34 }
    ensures loader_section_size { LOADER_SECTION_SIZE ≡ 0x38 }
    ensures loader_section_checksum { LOADER_SECTION_CHECKSUM ≡ 0x3C }
    ensures object_table { OBJECT_TABLE ≡ 0x40 }
    ensures object_count { OBJECT_COUNT ≡ 0x44 }
    ensures object_page_table { OBJECT_PAGE_TABLE ≡ 0x48 }
    ensures iterated_pages { ITERATED_PAGES ≡ 0x4C }
    ensures resource_table { RESOURCE_TABLE ≡ 0x50 }
    ensures resource_count { RESOURCE_COUNT ≡ 0x54 }
    ensures resident_name_table { RESIDENT_NAME_TABLE ≡ 0x58 }
    ensures entry_table { ENTRY_TABLE ≡ 0x5C }
    ensures module_directives { MODULE_DIRECTIVES ≡ 0x60 }
    ensures directive_count { DIRECTIVE_COUNT ≡ 0x64 }
    ensures fixup_page_table { FIXUP_PAGE_TABLE ≡ 0x68 }
    ensures fixup_record_table { FIXUP_RECORD_TABLE ≡ 0x6C }
    ensures import_module_table { IMPORT_MODULE_TABLE ≡ 0x70 }
    ensures import_module_count { IMPORT_MODULE_COUNT ≡ 0x74 }
    ensures import_procedure_table { IMPORT_PROCEDURE_TABLE ≡ 0x78 }
    ensures page_checksums { PAGE_CHECKSUMS ≡ 0x7C }
    ensures data_pages { DATA_PAGES ≡ 0x80 }
    ensures preload_pages { PRELOAD_PAGES ≡ 0x84 }
    ensures nonresident_name_table { NONRESIDENT_NAME_TABLE ≡ 0x88 }
    ensures nonresident_name_length { NONRESIDENT_NAME_LENGTH ≡ 0x8C }
    ensures nonresident_name_checksum { NONRESIDENT_NAME_CHECKSUM ≡ 0x90 }
    ensures auto_data_object { AUTO_DATA_OBJECT ≡ 0x94 }
    ensures debug_information { DEBUG_INFORMATION ≡ 0x98 }
    ensures debug_length { DEBUG_LENGTH ≡ 0x9C }
    ensures instance_preload_pages { INSTANCE_PRELOAD_PAGES ≡ 0xA0 }
    ensures instance_demand_pages { INSTANCE_DEMAND_PAGES ≡ 0xA4 }
    ensures heap_size { HEAP_SIZE ≡ 0xA8 }
    ensures lx { LX_SIGNATURE ≡ 0x584C }
    ensures place { HEADER_PLACE ≡ 0x3C }
{}

/// A law: how long the header and the entries of tables are.
pub fn lengths_are()
    ensures header { HEADER_LEN ≡ 196 }
    ensures object { OBJECT_ENTRY_LEN ≡ 24 }
    ensures page { PAGE_ENTRY_LEN ≡ 8 }
    ensures resource { RESOURCE_ENTRY_LEN ≡ 14 }
{}

/// A law: each flag of a record, and the most sources that one lists.
pub fn record_numbers()
    ensures alias { ALIAS ≡ 0x10 }
    ensures listed { LISTED ≡ 0x20 }
    ensures additive { ADDITIVE ≡ 0x04 }
    ensures chain { CHAIN ≡ 0x08 }
    ensures wide_target { WIDE_TARGET ≡ 0x10 }
    ensures wide_additive { WIDE_ADDITIVE ≡ 0x20 }
    ensures wide_number { WIDE_NUMBER ≡ 0x40 }
    ensures byte_ordinal { BYTE_ORDINAL ≡ 0x80 }
    ensures most_listed { MAX_LISTED ≡ 255 }
{}

/// A law: the greatest ordinal, the most entries of a bundle, and the least run that has a group of its own.
pub fn table_numbers()
    ensures ordinal { MAX_ORDINAL ≡ 65535 }
    ensures entries { MAX_ENTRIES ≡ 255 }
    ensures run { LONG_RUN ≡ 8 }
{}
