//! What is noticed of a module that is saved ("32-bit Linear eXecutable Module Format").

use lx_model::header_fields::{EIP_OBJECT, ENTRY_TABLE, MODULE_FLAGS};
use lx_types::{MODULE_KIND, MODULE_LIBRARY};
use refusal_notes::{header_of, word_at};

/// What was noticed of a module that was saved.
#[derive(Clone, Copy)]
pub struct SavedModule {
    pub is_program: bool,
    pub has_start: bool,
    pub exports_nothing: bool,
}

// A doubleword of the header.
fn field(bytes: &[u8], header: usize, offset: u8) -> Option<u32> {
    word_at(bytes, header.checked_add(usize::from(offset))?)
}

/// What is noticed of a saved file, where it is a module.
pub fn saved_module(bytes: &[u8]) -> Option<SavedModule> {
    let header = header_of(bytes)?;
    let kind = field(bytes, header, MODULE_FLAGS)? & MODULE_KIND;
    let entries = header.checked_add(field(bytes, header, ENTRY_TABLE)? as usize)?;
    let first = bytes.get(entries)?;
    Some(SavedModule {
        is_program: kind == 0,
        has_start: field(bytes, header, EIP_OBJECT)? != 0,
        exports_nothing: kind == MODULE_LIBRARY && *first == 0,
    })
}
