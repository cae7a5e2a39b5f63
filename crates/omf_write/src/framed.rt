//! A record's bytes: its type, its length, its contents and its checksum ("Record Format").

ghost use Rattle.std.specs.Prelude.{◌≡◌, ◌++◌, ◌-◌, ◌%◌, ◌<◌, OnOk, length, sum};
ghost use Rattle.implib_model.specs.Framed.{record_of};

use std::alloc::AllocError;

// The byte that makes the sum of these bytes and itself 0.
fn checksum_of(bytes: &[u8]) -> u8
    ensures { result ≡ (256 - sum bytes.now % 256) % 256 }
{
    let mut left = 0u8;
    for &byte in bytes {
        left = left.wrapping_sub(byte);
    }
    left
}

/// Writes a record after the bytes that are there.
pub fn push_record(out: &mut Vec<u8>, ty: u8, contents: &[u8]) -> Result<(), AllocError>
    requires { length contents.now < 65535 }
    ensures { OnOk result (out.new.items ≡ out.old.items ++ record_of ty contents.now) }
{
    let len = contents.len() as u16 + 1;
    let start = out.len();
    out.push(ty)?;
    out.extend_from_slice(&len.to_le_bytes())?;
    out.extend_from_slice(contents)?;
    let checksum = checksum_of(&out[start..]);
    out.push(checksum)?;
    Ok(())
}
