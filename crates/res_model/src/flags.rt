//! The flags of the object that holds resources ("Object Table").

use lx_types::{OBJECT_BIG, OBJECT_READABLE};

/// An object of resources.
const OBJECT_RESOURCE: u32 = 0x0008;

/// The flags of the new object: readable, of resources, and 32-bit.
pub const RESOURCE_OBJECT_FLAGS: u32 = OBJECT_READABLE + OBJECT_RESOURCE + OBJECT_BIG;
