//! The fields of the header, and what each may be ("LX Header").

ghost use Rattle.std.specs.Prelude.{◌≡◌, ◌+◌, ◌≤◌, length, OnOk};
ghost use Rattle.lx_types.specs.Answers.{as_is};
ghost use Rattle.lx_model.specs.Judging.{Judged};
ghost use Rattle.lx_model.specs.Header.{row_fault};
ghost use Rattle.lx_head.specs.Rows.{allows, row_of, fault_among, fields_fault};

use lx_fields::{Width, number};
use lx_model::header_fields::{
    AUTO_DATA_OBJECT, BYTE_ORDER, CPU_TYPE, DATA_PAGES, DEBUG_INFORMATION, DEBUG_LENGTH,
    DIRECTIVE_COUNT, EIP, EIP_OBJECT, ENTRY_TABLE, ESP, ESP_OBJECT, FIXUP_PAGE_TABLE,
    FIXUP_RECORD_TABLE, FIXUP_SECTION_CHECKSUM, FIXUP_SECTION_SIZE, FORMAT_LEVEL, HEAP_SIZE,
    IMPORT_MODULE_COUNT, IMPORT_MODULE_TABLE, IMPORT_PROCEDURE_TABLE, INSTANCE_DEMAND_PAGES,
    INSTANCE_PRELOAD_PAGES, ITERATED_PAGES, LOADER_SECTION_CHECKSUM, LOADER_SECTION_SIZE,
    MODULE_DIRECTIVES, MODULE_FLAGS, MODULE_PAGES, MODULE_VERSION, NONRESIDENT_NAME_CHECKSUM,
    NONRESIDENT_NAME_LENGTH, NONRESIDENT_NAME_TABLE, OBJECT_COUNT, OBJECT_PAGE_TABLE, OBJECT_TABLE,
    PAGE_CHECKSUMS, PAGE_OFFSET_SHIFT, PAGE_SIZE_FIELD, PRELOAD_PAGES, RESIDENT_NAME_TABLE,
    RESOURCE_COUNT, RESOURCE_TABLE, SYSTEM_TYPE, WORD_ORDER,
};
use lx_types::{LxKind, LxRefusal, MAX_OBJECTS, MAX_PAGES, MODULE_KIND, MODULE_LIBRARY, PAGE_SIZE};

/// What a field may be.
#[derive(Clone, Copy)]
pub enum Allowed {
    Any,
    Only(u32),
    /// From the first number to the second, both of them allowed.
    Between(u32, u32),
    AtMost(u32),
    /// The flags of a module that can be run.
    ModuleFlags,
}

/// A field of the header: its offset, its width, what it may be, and what is wrong otherwise.
#[derive(Clone, Copy)]
pub struct Field {
    pub offset: u8,
    pub width: Width,
    pub allowed: Allowed,
    pub kind: LxKind,
}

impl Allowed {
    fn allows(self, value: u32) -> bool
        ensures { result ≡ allows self value }
    {
        match self {
            Allowed::Any => true,
            Allowed::Only(wanted) => value == wanted,
            Allowed::Between(low, high) => low <= value && value <= high,
            Allowed::AtMost(most) => value <= most,
            Allowed::ModuleFlags => {
                let kind = value & MODULE_KIND;
                value & 0x2000 == 0 && (kind == 0 || kind == MODULE_LIBRARY)
            }
        }
    }
}

impl Field {
    // The field of a header at `place`.
    fn judge(self, bytes: &[u8], place: u32) -> Result<(), LxRefusal>
        ensures { Judged as_is result (row_fault bytes.now place (row_of self)) }
    {
        let at = place as usize + usize::from(self.offset);
        let Some(value) = number(bytes, at, self.width) else {
            return Err(LxRefusal {
                at: at as u64,
                kind: LxKind::Short,
            });
        };
        if !self.allowed.allows(value) {
            return Err(LxRefusal {
                at: at as u64,
                kind: self.kind,
            });
        }
        Ok(())
    }
}

macro_rules! any {
    ($offset:expr) => {
        Field {
            offset: $offset,
            width: Width::Doubleword,
            allowed: Allowed::Any,
            kind: LxKind::Field,
        }
    };
}

macro_rules! only {
    ($offset:expr, $width:expr, $value:expr) => {
        Field {
            offset: $offset,
            width: $width,
            allowed: Allowed::Only($value),
            kind: LxKind::Field,
        }
    };
}

macro_rules! at_most {
    ($offset:expr, $most:expr) => {
        Field {
            offset: $offset,
            width: Width::Doubleword,
            allowed: Allowed::AtMost($most),
            kind: LxKind::TooMany,
        }
    };
}

/// The fields of the header, after `LX`, by their offsets.
const FIELDS: [Field; 45] = [
    // little-endian
    only!(BYTE_ORDER, Width::Byte, 0),
    // little-endian
    only!(WORD_ORDER, Width::Byte, 0),
    only!(FORMAT_LEVEL, Width::Doubleword, 0),
    // an 80286, 80386 or 80486
    Field {
        offset: CPU_TYPE,
        width: Width::Word,
        allowed: Allowed::Between(1, 3),
        kind: LxKind::Field,
    },
    // OS/2
    only!(SYSTEM_TYPE, Width::Word, 1),
    any!(MODULE_VERSION),
    Field {
        offset: MODULE_FLAGS,
        width: Width::Doubleword,
        allowed: Allowed::ModuleFlags,
        kind: LxKind::Field,
    },
    at_most!(MODULE_PAGES, MAX_PAGES),
    any!(EIP_OBJECT),
    any!(EIP),
    any!(ESP_OBJECT),
    any!(ESP),
    only!(PAGE_SIZE_FIELD, Width::Doubleword, PAGE_SIZE),
    Field {
        offset: PAGE_OFFSET_SHIFT,
        width: Width::Doubleword,
        allowed: Allowed::AtMost(12),
        kind: LxKind::Field,
    },
    any!(FIXUP_SECTION_SIZE),
    any!(FIXUP_SECTION_CHECKSUM),
    any!(LOADER_SECTION_SIZE),
    any!(LOADER_SECTION_CHECKSUM),
    any!(OBJECT_TABLE),
    at_most!(OBJECT_COUNT, MAX_OBJECTS),
    any!(OBJECT_PAGE_TABLE),
    any!(ITERATED_PAGES),
    any!(RESOURCE_TABLE),
    any!(RESOURCE_COUNT),
    any!(RESIDENT_NAME_TABLE),
    any!(ENTRY_TABLE),
    any!(MODULE_DIRECTIVES),
    any!(DIRECTIVE_COUNT),
    any!(FIXUP_PAGE_TABLE),
    any!(FIXUP_RECORD_TABLE),
    any!(IMPORT_MODULE_TABLE),
    any!(IMPORT_MODULE_COUNT),
    any!(IMPORT_PROCEDURE_TABLE),
    any!(PAGE_CHECKSUMS),
    any!(DATA_PAGES),
    any!(PRELOAD_PAGES),
    any!(NONRESIDENT_NAME_TABLE),
    any!(NONRESIDENT_NAME_LENGTH),
    any!(NONRESIDENT_NAME_CHECKSUM),
    any!(AUTO_DATA_OBJECT),
    any!(DEBUG_INFORMATION),
    any!(DEBUG_LENGTH),
    any!(INSTANCE_PRELOAD_PAGES),
    any!(INSTANCE_DEMAND_PAGES),
    any!(HEAP_SIZE),
];

// Whether each of the fields of a header at `place` is there and has a value that is allowed.
fn judge_all(fields: &[Field], bytes: &[u8], place: u32) -> Result<(), LxRefusal>
    ensures { Judged as_is result (fault_among fields.now bytes.now place) }
{
    for field in fields {
        field.judge(bytes, place)?;
    }
    Ok(())
}

/// Whether each field of a header at `place` is there and has a value that is allowed: the first
/// one that is not, by offset, is told.
pub fn judge_fields(bytes: &[u8], place: u32) -> Result<(), LxRefusal>
    ensures judged { Judged as_is result (fields_fault bytes.now place) }
    ensures room { OnOk result (place + 172 ≤ length bytes.now) }
{
    judge_all(&FIELDS, bytes, place)
}
