//! Numbers at places of a file.

ghost use Rattle.std.specs.Prelude.{◌<◌, ◌^◌};
ghost use Rattle.lx_fields.specs.Places.{bytes_in, IsNumberAt};

use byteorder::{ByteOrder, LittleEndian};

/// How many bytes a field has.
#[derive(Clone, Copy)]
pub enum Width {
    Byte,
    Word,
    Doubleword,
}

/// The number in the bytes at a place, the lowest first; `None` where they pass the end.
pub fn number(bytes: &[u8], at: usize, width: Width) -> Option<u32>
    requires { at < 2 ^ 63 }
    ensures { IsNumberAt result (bytes_in width) bytes.now at }
{
    let count = match width {
        Width::Byte => 1,
        Width::Word => 2,
        Width::Doubleword => 4,
    };
    if bytes.len() < at + count {
        return None;
    }
    let field = &bytes[at..];
    Some(match width {
        Width::Byte => u32::from(field[0]),
        Width::Word => u32::from(LittleEndian::read_u16(field)),
        Width::Doubleword => LittleEndian::read_u32(field),
    })
}
