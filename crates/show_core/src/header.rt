//! The header of a module, field by field ("LX Header").

ghost use Rattle.std.specs.Prelude.{◌<◌, ◌^◌, IfSome};

use crate::flags::{MODULE_FLAG_WORDS, flag_words};
use crate::line;
use crate::outline::add;
use line_words::Word;
use lx_fields::{Width, header_field, number, table_place};
use lx_model::header_fields::{
    AUTO_DATA_OBJECT, BYTE_ORDER, CPU_TYPE, DATA_PAGES, DEBUG_INFORMATION, DEBUG_LENGTH,
    DIRECTIVE_COUNT, EIP, EIP_OBJECT, ENTRY_TABLE, ESP, ESP_OBJECT, FIXUP_PAGE_TABLE,
    FIXUP_RECORD_TABLE, FIXUP_SECTION_CHECKSUM, FIXUP_SECTION_SIZE, FORMAT_LEVEL, HEAP_SIZE,
    IMPORT_MODULE_COUNT, IMPORT_MODULE_TABLE, IMPORT_PROCEDURE_TABLE, INSTANCE_DEMAND_PAGES,
    INSTANCE_PRELOAD_PAGES, ITERATED_PAGES, LOADER_SECTION_CHECKSUM, LOADER_SECTION_SIZE,
    LX_SIGNATURE, MODULE_DIRECTIVES, MODULE_FLAGS, MODULE_PAGES, MODULE_VERSION,
    NONRESIDENT_NAME_CHECKSUM, NONRESIDENT_NAME_LENGTH, NONRESIDENT_NAME_TABLE, OBJECT_COUNT,
    OBJECT_PAGE_TABLE, OBJECT_TABLE, PAGE_CHECKSUMS, PAGE_OFFSET_SHIFT, PAGE_SIZE_FIELD,
    PRELOAD_PAGES, RESIDENT_NAME_TABLE, RESOURCE_COUNT, RESOURCE_TABLE, SIGNATURE, SYSTEM_TYPE,
    WORD_ORDER,
};
use lx_types::{Bytes, NoMemory};
use show_model::Part;
use std::alloc::Global;

/// How a number is told.
#[derive(Clone, Copy)]
enum Digits {
    Decimal,
    Hex,
}

/// A field: what it is called, its offset in the header, its width, and how it is told.
#[derive(Clone, Copy)]
struct Field {
    name: &'static str,
    offset: u8,
    width: Width,
    digits: Digits,
}

macro_rules! field {
    ($name:literal, $offset:expr, $width:ident, $digits:ident) => {
        Field {
            name: $name,
            offset: $offset,
            width: Width::$width,
            digits: Digits::$digits,
        }
    };
}

const FIELDS: [Field; 46] = [
    field!("signature", SIGNATURE, Word, Hex),
    field!("byte order", BYTE_ORDER, Byte, Decimal),
    field!("word order", WORD_ORDER, Byte, Decimal),
    field!("format level", FORMAT_LEVEL, Doubleword, Decimal),
    field!("CPU type", CPU_TYPE, Word, Decimal),
    field!("OS type", SYSTEM_TYPE, Word, Decimal),
    field!("module version", MODULE_VERSION, Doubleword, Decimal),
    field!("module flags", MODULE_FLAGS, Doubleword, Hex),
    field!("module pages", MODULE_PAGES, Doubleword, Decimal),
    field!("EIP object", EIP_OBJECT, Doubleword, Decimal),
    field!("EIP", EIP, Doubleword, Hex),
    field!("ESP object", ESP_OBJECT, Doubleword, Decimal),
    field!("ESP", ESP, Doubleword, Hex),
    field!("page size", PAGE_SIZE_FIELD, Doubleword, Decimal),
    field!("page offset shift", PAGE_OFFSET_SHIFT, Doubleword, Decimal),
    field!(
        "fixup section size",
        FIXUP_SECTION_SIZE,
        Doubleword,
        Decimal
    ),
    field!(
        "fixup section checksum",
        FIXUP_SECTION_CHECKSUM,
        Doubleword,
        Hex
    ),
    field!(
        "loader section size",
        LOADER_SECTION_SIZE,
        Doubleword,
        Decimal
    ),
    field!(
        "loader section checksum",
        LOADER_SECTION_CHECKSUM,
        Doubleword,
        Hex
    ),
    field!("object table", OBJECT_TABLE, Doubleword, Hex),
    field!("objects in module", OBJECT_COUNT, Doubleword, Decimal),
    field!("object page table", OBJECT_PAGE_TABLE, Doubleword, Hex),
    field!("iterated pages", ITERATED_PAGES, Doubleword, Hex),
    field!("resource table", RESOURCE_TABLE, Doubleword, Hex),
    field!(
        "resource table entries",
        RESOURCE_COUNT,
        Doubleword,
        Decimal
    ),
    field!("resident name table", RESIDENT_NAME_TABLE, Doubleword, Hex),
    field!("entry table", ENTRY_TABLE, Doubleword, Hex),
    field!("module directives", MODULE_DIRECTIVES, Doubleword, Hex),
    field!(
        "number of module directives",
        DIRECTIVE_COUNT,
        Doubleword,
        Decimal
    ),
    field!("fixup page table", FIXUP_PAGE_TABLE, Doubleword, Hex),
    field!("fixup record table", FIXUP_RECORD_TABLE, Doubleword, Hex),
    field!("import module table", IMPORT_MODULE_TABLE, Doubleword, Hex),
    field!(
        "import module entries",
        IMPORT_MODULE_COUNT,
        Doubleword,
        Decimal
    ),
    field!(
        "import procedure table",
        IMPORT_PROCEDURE_TABLE,
        Doubleword,
        Hex
    ),
    field!("per-page checksums", PAGE_CHECKSUMS, Doubleword, Hex),
    field!("data pages", DATA_PAGES, Doubleword, Hex),
    field!("preload pages", PRELOAD_PAGES, Doubleword, Decimal),
    field!(
        "non-resident name table",
        NONRESIDENT_NAME_TABLE,
        Doubleword,
        Hex
    ),
    field!(
        "non-resident name table length",
        NONRESIDENT_NAME_LENGTH,
        Doubleword,
        Decimal
    ),
    field!(
        "non-resident name table checksum",
        NONRESIDENT_NAME_CHECKSUM,
        Doubleword,
        Hex
    ),
    field!(
        "automatic data object",
        AUTO_DATA_OBJECT,
        Doubleword,
        Decimal
    ),
    field!("debug information", DEBUG_INFORMATION, Doubleword, Hex),
    field!(
        "debug information length",
        DEBUG_LENGTH,
        Doubleword,
        Decimal
    ),
    field!(
        "instance preload pages",
        INSTANCE_PRELOAD_PAGES,
        Doubleword,
        Decimal
    ),
    field!(
        "instance demand pages",
        INSTANCE_DEMAND_PAGES,
        Doubleword,
        Decimal
    ),
    field!("heap size", HEAP_SIZE, Doubleword, Decimal),
];

/// Where the header stands in the file, if `LX` stands there.
pub fn header_place(bytes: &[u8]) -> Option<usize>
    ensures { IfSome result (λ place. place < 2 ^ 33) }
{
    let field = u64::from(header_field(bytes, MODULE_FLAGS));
    let place = table_place(bytes, MODULE_FLAGS).saturating_sub(field) as usize;
    match number(bytes, place, Width::Word) {
        Some(word) if word == u32::from(LX_SIGNATURE) => Some(place),
        _ => None,
    }
}

// The fields that lie in the file.
fn field_lines(alloc: Global, bytes: &[u8], place: usize) -> Result<Vec<Bytes>, NoMemory>
    requires { place < 2 ^ 33 }
{
    let mut lines = Vec::new(alloc);
    for field in &FIELDS {
        let at = place + usize::from(field.offset);
        if let Some(value) = number(bytes, at, field.width) {
            let name = field.name.as_bytes();
            lines.push(match field.digits {
                Digits::Decimal => line!(alloc; Text name, Number value)?,
                Digits::Hex => line!(alloc; Text name, Hex value)?,
            })?;
        }
    }
    Ok(lines)
}

/// Adds the fields of the header that lie in the file, and its flags in words.
pub fn add_header(alloc: Global, out: &mut Vec<Part>, bytes: &[u8]) -> Result<(), NoMemory> {
    let Some(place) = header_place(bytes) else {
        return Ok(());
    };
    let lines = field_lines(alloc, bytes, place)?;
    add(alloc, out, "header", lines)?;
    let words = flag_words(alloc, header_field(bytes, MODULE_FLAGS), &MODULE_FLAG_WORDS)?;
    let mut lines = Vec::new(alloc);
    if !words.is_empty() {
        lines.push(line!(alloc; Text &words)?)?;
    }
    add(alloc, out, "module flags", lines)
}
