//! Names, as they are told.

ghost use Rattle.std.specs.Prelude.{◌≡◌, ◌++◌, OnOk};
ghost use Rattle.lx_types.specs.Escaped.{escaped_byte, escaped};

use crate::digits::hex_digit;
use std::alloc::AllocError;

fn push_byte(out: &mut Vec<u8>, byte: u8) -> Result<(), AllocError>
    ensures { OnOk result (out.new.items ≡ out.old.items ++ escaped_byte byte) }
{
    if (0x21..=0x7E).contains(&byte) && byte != b'%' {
        out.extend_from_slice(&[byte])
    } else {
        out.extend_from_slice(&[b'%', hex_digit(byte / 16), hex_digit(byte % 16)])
    }
}

/// Writes a name: bytes outside 21h to 7Eh, and `%`, as `%` and two hexadecimal digits in upper
/// case.
pub fn push_escaped(out: &mut Vec<u8>, name: &[u8]) -> Result<(), AllocError>
    ensures { OnOk result (out.new.items ≡ out.old.items ++ escaped name.now) }
{
    for &byte in name {
        push_byte(out, byte)?;
    }
    Ok(())
}
