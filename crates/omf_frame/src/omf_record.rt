//! A record as a value.

ghost use Rattle.std.specs.Prelude.{◌+◌, ◌<◌, ◌^◌, length};

/// A record. Its contents are `body`, without the checksum byte, and begin at `at + 3`.
#[derive(Clone, Copy)]
pub struct Rec<'a> {
    /// The place of its first byte.
    pub at: usize,
    pub ty: u8,
    pub body: &'a [u8],
    pub ghost room: { at + 4 + length body.now < 2 ^ 64 },
}
