//! The bytes of an object as text.
ghost use Rattle.std.specs.Prelude.{◌≡◌, ◌≤◌, ◌+◌, ◌^◌, ◌++◌, length, IfOk, OnOk, List};
ghost use Rattle.std.specs.List.{All, flat_map};
ghost use Rattle.answer_model.specs.ImageText.{line, image_text, spaced};
ghost use Rattle.file_commands.specs.Rows.{FitsBase, row_text};

use link_model::LaidObject;
use lx_types::{Bytes, Seq, push_hex_address, push_hex_byte};
use std::alloc::{AllocError, Global};

const LINE: usize = 16;

/// The text of all objects in memory, in their order.
pub fn memory_text(alloc: Global, rows: &[(LaidObject, Bytes)]) -> Result<Bytes, AllocError>
    requires { All FitsBase rows.now }
    ensures { IfOk result (λ text. text ≡ flat_map row_text rows.now) }
{
    let mut text = Vec::new(alloc);
    for (object, bytes) in rows {
        push_image(&mut text, object.base, bytes.as_slice())?;
    }
    Ok(Seq::from_vec(text))
}

/// Adds the text of an object's bytes at a base: sixteen bytes a line.
pub fn push_image(text: &mut Vec<u8>, base: u32, bytes: &[u8]) -> Result<(), AllocError>
    requires { base + length bytes.now ≤ 2 ^ 32 }
    ensures { OnOk result (text.new.items ≡ text.old.items ++ image_text base bytes.now) }
{
    for number in 0..bytes.len().div_ceil(LINE) {
        let start = LINE * number;
        let end = (start + LINE).min(bytes.len());
        push_line(text, base + start as u32, &bytes[start..end])?;
    }
    Ok(())
}

fn push_line(text: &mut Vec<u8>, at: u32, bytes: &[u8]) -> Result<(), AllocError>
    ensures { OnOk result (text.new.items ≡ text.old.items ++ line at bytes.now) }
{
    push_hex_address(text, at)?;
    text.push(b':')?;
    for byte in bytes {
        push_spaced(text, *byte)?;
    }
    text.push(b'\n')?;
    Ok(())
}

// A blank and the two digits of a byte.
fn push_spaced(text: &mut Vec<u8>, byte: u8) -> Result<(), AllocError>
    ensures { OnOk result (text.new.items ≡ text.old.items ++ spaced byte) }
{
    text.push(b' ')?;
    push_hex_byte(text, u32::from(byte))
}
