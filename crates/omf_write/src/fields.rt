//! The fields of records ("Record Format", "Index fields").

ghost use Rattle.std.specs.Prelude.{◌≡◌, ◌+◌, ◌++◌, ◌≤◌, OnOk, length};
ghost use Rattle.lx_types.specs.Names.{uppercase};
ghost use Rattle.implib_model.specs.Framed.{name_bytes};
ghost use Rattle.omf_write.specs.ObjectBytes.{index_bytes};

use lx_types::Name;
use std::alloc::AllocError;

/// Writes a length byte and the name.
pub fn push_name(out: &mut Vec<u8>, name: &[u8]) -> Result<(), AllocError>
    requires { length name.now ≤ 255 }
    ensures { OnOk result (out.new.items ≡ out.old.items ++ name_bytes name.now) }
{
    out.push(name.len() as u8)?;
    out.extend_from_slice(name)?;
    Ok(())
}

/// Writes a length byte and the name in upper case.
pub fn push_uppercase(out: &mut Vec<u8>, name: &Name) -> Result<(), AllocError>
    ensures is { OnOk result (out.new.items ≡ out.old.items ++ name_bytes (uppercase name.now)) }
    ensures short { OnOk result (length out.new.items ≤ length out.old.items + 256) }
{
    let bytes = name.bytes();
    out.push(bytes.len() as u8)?;
    for byte in bytes {
        out.push(byte.to_ascii_uppercase())?;
    }
    Ok(())
}

/// Writes an index: one byte below 80h, or two bytes, the first with its high bit set.
pub fn push_index(out: &mut Vec<u8>, index: u32) -> Result<(), AllocError>
    ensures { OnOk result (out.new.items ≡ out.old.items ++ index_bytes index) }
{
    if index < 128 {
        out.push(index as u8)?;
        return Ok(());
    }
    out.push((128 + index / 256 % 128) as u8)?;
    out.push((index % 256) as u8)?;
    Ok(())
}
