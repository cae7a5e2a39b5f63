//! What a command has to say.

use lx_types::Bytes;

/// The status with which the program ends, and the text that it puts.
#[derive(Drop)]
pub struct Said {
    pub status: u8,
    pub text: Bytes,
}
