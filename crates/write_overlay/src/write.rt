//! A write to an object.

ghost use Rattle.std.specs.Prelude.{◌≡◌};

use lx_types::Bytes;
use std::marker::Model;

/// Bytes that were written at an offset of an object. Objects count from 1.
pub struct Write {
    object: u32,
    offset: u32,
    bytes: Bytes,
}

// Dropped by a call, as lists are (`Seq`).
impl Drop for Write {
    fn drop(self) {
        let Write {
            object: _,
            offset: _,
            bytes,
        } = self;
        drop(bytes);
    }
}

impl Model for Write {
    ghost use Rattle.load_model.specs.State.{Written};
    ghost use Rattle.write_overlay.specs.Laid.{written_of};

    ghost Value = { Written };

    ghost view = { written_of };
}

impl Write {
    /// The write of these bytes.
    pub fn new(object: u32, offset: u32, bytes: Bytes) -> Write
        ensures { result ≡ record { object = object; offset = offset; bytes = bytes } }
    {
        Write {
            object,
            offset,
            bytes,
        }
    }

    /// The object.
    pub fn object(&self) -> u32
        ensures { result ≡ self.now.object }
    {
        self.object
    }

    /// Where in the object the first byte stands.
    pub fn offset(&self) -> u32
        ensures { result ≡ self.now.offset }
    {
        self.offset
    }

    /// The bytes.
    pub fn bytes(&self) -> &[u8]
        ensures { result.now ≡ self.now.bytes }
    {
        self.bytes.as_slice()
    }

    /// The bytes, by value. It takes no memory.
    pub fn into_bytes(self) -> Bytes
        ensures { result ≡ self.bytes }
    {
        let Write {
            object: _,
            offset: _,
            bytes,
        } = self;
        bytes
    }
}
