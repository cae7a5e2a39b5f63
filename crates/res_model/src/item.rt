//! A resource as a value.

use lx_types::Bytes;

/// What stands before an item's type and before its identifier.
pub const MARK: u8 = 0xFF;

/// How many bytes of an item stand before the bytes of the resource.
pub const FIELDS: usize = 12;

/// A resource: data that a program asks for by its type and its identifier. The flags are kept by no module.
#[derive(Drop)]
pub struct ResItem {
    pub ty: u16,
    pub id: u16,
    pub flags: u16,
    pub bytes: Bytes,
}
