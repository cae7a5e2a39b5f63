//! The header as doublewords, and how it is written ("LX Header").

ghost use Rattle.std.specs.Prelude.{◌≡◌, ◌<◌, length, None};
ghost use Rattle.lx_model.specs.Header.{header_fault, header_fields};
ghost use Rattle.lx_model.specs.TableSpelling.{header_spelling, AreDoublewords};
ghost use Rattle.lx_head.specs.Accepted.{Accepted, doubleword};

use byteorder::{ByteOrder, LittleEndian};
use lx_model::HEADER_LEN;
use lx_model::header_fields::{
    DATA_PAGES, EIP, EIP_OBJECT, ENTRY_TABLE, FIXUP_PAGE_TABLE, FIXUP_RECORD_TABLE,
    IMPORT_MODULE_COUNT, IMPORT_MODULE_TABLE, IMPORT_PROCEDURE_TABLE, ITERATED_PAGES, MODULE_FLAGS,
    MODULE_PAGES, NONRESIDENT_NAME_LENGTH, NONRESIDENT_NAME_TABLE, OBJECT_COUNT, OBJECT_PAGE_TABLE,
    OBJECT_TABLE, PAGE_OFFSET_SHIFT, RESIDENT_NAME_TABLE, RESOURCE_COUNT,
};

/// A header: its place in the file, and its doublewords from 00h to A8h. The first one has `LX`,
/// the byte order and the word order.
#[derive(Clone, Copy)]
pub struct Head {
    pub place: u32,
    pub fields: [u32; 43],
}

impl Head {
    // The doubleword at an offset of the header.
    fn field(&self, offset: u8) -> u32
        requires { offset < 172 }
        ensures { result ≡ doubleword self.now.fields offset }
    {
        self.fields[usize::from(offset) / 4]
    }

    /// The module flags.
    pub fn module_flags(&self) -> u32
        ensures { result ≡ doubleword self.now.fields MODULE_FLAGS }
    {
        self.field(MODULE_FLAGS)
    }

    /// How many entries the object page table has.
    pub fn page_count(&self) -> u32
        ensures { result ≡ doubleword self.now.fields MODULE_PAGES }
    {
        self.field(MODULE_PAGES)
    }

    /// The object in which the module starts, or 0.
    pub fn start_object(&self) -> u32
        ensures { result ≡ doubleword self.now.fields EIP_OBJECT }
    {
        self.field(EIP_OBJECT)
    }

    /// The offset at which the module starts.
    pub fn start_offset(&self) -> u32
        ensures { result ≡ doubleword self.now.fields EIP }
    {
        self.field(EIP)
    }

    /// By how many bits the offsets of pages are shifted.
    pub fn page_shift(&self) -> u32
        ensures { result ≡ doubleword self.now.fields PAGE_OFFSET_SHIFT }
    {
        self.field(PAGE_OFFSET_SHIFT)
    }

    /// The object table, from the header.
    pub fn object_table(&self) -> u32
        ensures { result ≡ doubleword self.now.fields OBJECT_TABLE }
    {
        self.field(OBJECT_TABLE)
    }

    /// How many entries the object table has.
    pub fn object_count(&self) -> u32
        ensures { result ≡ doubleword self.now.fields OBJECT_COUNT }
    {
        self.field(OBJECT_COUNT)
    }

    /// The object page table, from the header.
    pub fn page_table(&self) -> u32
        ensures { result ≡ doubleword self.now.fields OBJECT_PAGE_TABLE }
    {
        self.field(OBJECT_PAGE_TABLE)
    }

    /// The data of iterated pages, from the file's start.
    pub fn iterated_pages(&self) -> u32
        ensures { result ≡ doubleword self.now.fields ITERATED_PAGES }
    {
        self.field(ITERATED_PAGES)
    }

    /// How many entries the resource table has.
    pub fn resource_count(&self) -> u32
        ensures { result ≡ doubleword self.now.fields RESOURCE_COUNT }
    {
        self.field(RESOURCE_COUNT)
    }

    /// The resident name table, from the header.
    pub fn resident_names(&self) -> u32
        ensures { result ≡ doubleword self.now.fields RESIDENT_NAME_TABLE }
    {
        self.field(RESIDENT_NAME_TABLE)
    }

    /// The entry table, from the header.
    pub fn entry_table(&self) -> u32
        ensures { result ≡ doubleword self.now.fields ENTRY_TABLE }
    {
        self.field(ENTRY_TABLE)
    }

    /// The fixup page table, from the header, or 0 where no page has fixup records.
    pub fn fixup_page_table(&self) -> u32
        ensures { result ≡ doubleword self.now.fields FIXUP_PAGE_TABLE }
    {
        self.field(FIXUP_PAGE_TABLE)
    }

    /// The fixup record table, from the header.
    pub fn fixup_records(&self) -> u32
        ensures { result ≡ doubleword self.now.fields FIXUP_RECORD_TABLE }
    {
        self.field(FIXUP_RECORD_TABLE)
    }

    /// The import module name table, from the header.
    pub fn import_modules(&self) -> u32
        ensures { result ≡ doubleword self.now.fields IMPORT_MODULE_TABLE }
    {
        self.field(IMPORT_MODULE_TABLE)
    }

    /// How many names the import module name table has.
    pub fn import_count(&self) -> u32
        ensures { result ≡ doubleword self.now.fields IMPORT_MODULE_COUNT }
    {
        self.field(IMPORT_MODULE_COUNT)
    }

    /// The import procedure name table, from the header.
    pub fn import_procedures(&self) -> u32
        ensures { result ≡ doubleword self.now.fields IMPORT_PROCEDURE_TABLE }
    {
        self.field(IMPORT_PROCEDURE_TABLE)
    }

    /// The data of pages that are not iterated, from the file's start.
    pub fn data_pages(&self) -> u32
        ensures { result ≡ doubleword self.now.fields DATA_PAGES }
    {
        self.field(DATA_PAGES)
    }

    /// The non-resident name table, from the file's start.
    pub fn other_names(&self) -> u32
        ensures { result ≡ doubleword self.now.fields NONRESIDENT_NAME_TABLE }
    {
        self.field(NONRESIDENT_NAME_TABLE)
    }

    /// How many bytes the non-resident name table has; there is none where it is 0.
    pub fn other_names_length(&self) -> u32
        ensures { result ≡ doubleword self.now.fields NONRESIDENT_NAME_LENGTH }
    {
        self.field(NONRESIDENT_NAME_LENGTH)
    }
}

/// The bytes of a header with these doublewords; those after A8h's doubleword are 0.
pub fn header_bytes(fields: &[u32; 43]) -> [u8; HEADER_LEN]
    ensures bytes { result ≡ header_spelling fields.now }
    ensures count { length fields.now ≡ 43 }
    ensures fit { AreDoublewords fields.now }
{
    let mut bytes = [0; HEADER_LEN];
    LittleEndian::write_u32_into(fields, &mut bytes[..172]);
    bytes
}

/// The bytes of a header that stands at the file's start; those after A8h's doubleword are 0.
/// Its fields have to be what a reader accepts.
pub fn write_head(h: &Head) -> [u8; HEADER_LEN]
    requires place { h.now.place ≡ 0 }
    requires accepted { Accepted h.now.fields }
    ensures spelled { result ≡ header_spelling h.now.fields }
    ensures sound { header_fault result ≡ None }
    ensures again { header_fields result ≡ h.now.fields }
{
    header_bytes(&h.fields)
}
