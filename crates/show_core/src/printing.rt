//! The text of parts.

ghost use Rattle.std.specs.Prelude.{◌≡◌, ◌++◌, ◌∷◌, [], IfOk, OnOk};
ghost use Rattle.std.specs.List.{flat_map};
ghost use Rattle.show_model.specs.Outlines.{IsOutline, heading_text, line_text, outline_text, part_text, shown, shown_byte, tallies};

use line_words::push_number;
use lx_types::{Bytes, push_hex_byte};
use show_model::Part;
use std::alloc::{AllocError, Global};

fn push_shown_byte(out: &mut Vec<u8>, byte: u8) -> Result<(), AllocError>
    ensures { OnOk result (out.new.items ≡ out.old.items ++ shown_byte byte) }
{
    if (0x20..=0x7E).contains(&byte) && byte != b'\\' {
        out.push(byte)?;
        return Ok(());
    }
    out.push(b'\\')?;
    if byte == b'\\' {
        out.push(b'\\')?;
        return Ok(());
    }
    out.push(b'x')?;
    push_hex_byte(out, u32::from(byte))
}

// Bytes that are not printable, and backslashes, as escapes.
fn push_shown(out: &mut Vec<u8>, bytes: &[u8]) -> Result<(), AllocError>
    ensures { OnOk result (out.new.items ≡ out.old.items ++ shown bytes.now) }
{
    for &byte in bytes {
        push_shown_byte(out, byte)?;
    }
    Ok(())
}

fn push_line(out: &mut Vec<u8>, line: &Bytes) -> Result<(), AllocError>
    ensures { OnOk result (out.new.items ≡ out.old.items ++ line_text line.now) }
{
    out.extend_from_slice(b"  ")?;
    push_shown(out, line.as_slice())?;
    out.push(b'\n')?;
    Ok(())
}

fn push_lines(out: &mut Vec<u8>, lines: &[Bytes]) -> Result<(), AllocError>
    ensures { OnOk result (out.new.items ≡ out.old.items ++ flat_map line_text lines.now) }
{
    for line in lines {
        push_line(out, line)?;
    }
    Ok(())
}

fn push_heading(out: &mut Vec<u8>, part: &Part) -> Result<(), AllocError>
    ensures { OnOk result (out.new.items ≡ out.old.items ++ heading_text part.now) }
{
    push_shown(out, part.heading.as_slice())?;
    out.extend_from_slice(b": ")?;
    push_number(out, part.lines.as_slice().len() as u64)?;
    out.push(b'\n')?;
    Ok(())
}

fn push_part(out: &mut Vec<u8>, part: &Part) -> Result<(), AllocError>
    ensures { OnOk result (out.new.items ≡ out.old.items ++ part_text part.now) }
{
    push_heading(out, part)?;
    push_lines(out, part.lines.as_slice())
}

fn push_parts(out: &mut Vec<u8>, parts: &[Part]) -> Result<(), AllocError>
    ensures { OnOk result (out.new.items ≡ out.old.items ++ outline_text parts.now) }
{
    for part in parts {
        push_part(out, part)?;
    }
    Ok(())
}

/// The text of parts: those that stand first, those of the lists, and those that stand last.
pub fn print_outline(
    alloc: Global,
    before: &[Part],
    listed: &[Part],
    after: &[Part],
) -> Result<Vec<u8>, AllocError>
    ensures { IfOk result (λ text. IsOutline text.items (tallies listed.now)) }
{
    let mut text = Vec::new(alloc);
    push_parts(&mut text, before)?;
    push_parts(&mut text, listed)?;
    push_parts(&mut text, after)?;
    Ok(text)
}
