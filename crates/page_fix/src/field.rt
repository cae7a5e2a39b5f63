//! The bytes that a source puts.

ghost use Rattle.std.specs.Prelude.{◌≡◌, ◌≤◌, take};
ghost use Rattle.lx_model.specs.Fixed.{field_bytes};

use lx_types::{Source, selected_offset, selector};

/// The bytes of a field: the first `len` of six.
#[derive(Clone, Copy)]
pub struct Field {
    bytes: [u8; 6],
    len: usize,
    ghost within: { len ≤ 6 },
}

impl Field {
    /// Its bytes.
    pub fn bytes(&self) -> &[u8]
        ensures { result.now ≡ take self.now.len self.now.bytes }
    {
        &self.bytes[..self.len]
    }
}

/// What a source's field gets for an address in an object with these flags; the field ends at `end`. ("32-bit Linear
/// eXecutable Module Format": "Fixup Record Table", source types.)
pub fn field_for(source: Source, alias: bool, flags: u32, address: u32, end: u32) -> Field
    ensures { take result.len result.bytes ≡ field_bytes source alias flags address end }
{
    let [a, b, c, d] = address.to_le_bytes();
    let [s, t] = selector(alias, flags, address).to_le_bytes();
    let (bytes, len) = match source {
        Source::Byte => ([a, 0, 0, 0, 0, 0], 1),
        Source::Sel => ([s, t, 0, 0, 0, 0], 2),
        Source::Far16 => ([a, b, s, t, 0, 0], 4),
        Source::Off16 => ([a, b, 0, 0, 0, 0], 2),
        Source::Far32 => {
            let [e, f, g, h] = selected_offset(alias, flags, address).to_le_bytes();
            ([e, f, g, h, s, t], 6)
        }
        Source::Off32 => ([a, b, c, d, 0, 0], 4),
        Source::Self32 => {
            let [e, f, g, h] = address.wrapping_sub(end).to_le_bytes();
            ([e, f, g, h, 0, 0], 4)
        }
    };
    Field { bytes, len }
}
