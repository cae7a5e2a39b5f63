//! Numbers in hexadecimal digits.

ghost use Rattle.std.specs.Prelude.{◌≡◌, ◌++◌, ◌<◌, OnOk};
ghost use Rattle.lx_types.specs.Escaped.{hex_digit, hex_byte, hex_address};

use std::alloc::AllocError;

/// A digit, in upper case.
pub(crate) fn hex_digit(n: u8) -> u8
    requires { n < 16 }
    ensures { result ≡ hex_digit n }
{
    if n < 10 { b'0' + n } else { b'A' - 10 + n }
}

/// Writes the last two digits of a number, in upper case.
pub fn push_hex_byte(out: &mut Vec<u8>, n: u32) -> Result<(), AllocError>
    ensures { OnOk result (out.new.items ≡ out.old.items ++ hex_byte n) }
{
    let high = hex_digit((n / 16 % 16) as u8);
    let low = hex_digit((n % 16) as u8);
    out.extend_from_slice(&[high, low])
}

/// Writes the eight digits of a number, in upper case.
pub fn push_hex_address(out: &mut Vec<u8>, n: u32) -> Result<(), AllocError>
    ensures { OnOk result (out.new.items ≡ out.old.items ++ hex_address n) }
{
    push_hex_byte(out, n / 0x100_0000)?;
    push_hex_byte(out, n / 0x1_0000)?;
    push_hex_byte(out, n / 0x100)?;
    push_hex_byte(out, n)
}
