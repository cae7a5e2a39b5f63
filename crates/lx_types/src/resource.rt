//! Resources: data that a program asks for by a type and an identifier.
//!
//! "32-bit Linear eXecutable Module Format": "Resource Table".

/// Where a resource lies: `len` bytes of an object, from `offset` on. Objects count from 1.
#[derive(Clone, Copy)]
pub struct ResSpot {
    pub object: u32,
    pub offset: u32,
    pub len: u32,
}
