//! How the fields of a record are written.

ghost use Rattle.std.specs.Prelude.{◌≡◌, ◌<◌, ◌^◌, ◌++◌, ◌∷◌, [], length, true, All, IfOk};
ghost use Rattle.std.specs.List.{flat_map};
ghost use Rattle.lx_bytes.specs.LittleEndian.{little_bytes};
ghost use Rattle.lx_model.specs.Sources.{source_byte};
ghost use Rattle.lx_model.specs.RecordFields.{number_width, target_width, ordinal_width, additive_width, has};
ghost use Rattle.lx_model.specs.RecordSpelling.{flag, flags_of, target_code, internal_spelling, target_spelling, additive_spelling, offset_spelling, InternalFits, TargetFits, OffsetFits};
ghost use Rattle.lx_model.specs.JoinedRecords.{sizes_with};
ghost use Rattle.lx_fixrec.specs.Reads.{kind_of};
ghost use Rattle.lx_fixrec.specs.Writes.{shortest_flags};

use lx_model::{ADDITIVE, BYTE_ORDINAL, WIDE_ADDITIVE, WIDE_NUMBER, WIDE_TARGET};
use lx_types::{FixTarget, Source};
use std::alloc::AllocError;

// ---- numbers

fn push_word(out: &mut Vec<u8>, number: u32) -> Result<(), AllocError>
    requires { number < 2 ^ 16 }
    ensures { IfOk result (λ _. out.new.items ≡ out.old.items ++ little_bytes 2 number) }
{
    out.extend_from_slice(&(number as u16).to_le_bytes())
}

fn push_doubleword(out: &mut Vec<u8>, number: u32) -> Result<(), AllocError>
    ensures { IfOk result (λ _. out.new.items ≡ out.old.items ++ little_bytes 4 number) }
{
    out.extend_from_slice(&number.to_le_bytes())
}

fn push_byte(out: &mut Vec<u8>, number: u32) -> Result<(), AllocError>
    requires { number < 2 ^ 8 }
    ensures { IfOk result (λ _. out.new.items ≡ out.old.items ++ little_bytes 1 number) }
{
    out.extend_from_slice(&[number as u8])
}

// The number of an object or a module, or an ordinal of the entry table.
fn push_short_number(out: &mut Vec<u8>, flags: u8, number: u32) -> Result<(), AllocError>
    requires { number < 256 ^ number_width flags }
    ensures { IfOk result (λ _. out.new.items ≡ out.old.items ++ little_bytes (number_width flags) number) }
{
    if flags & WIDE_NUMBER == 0 {
        push_byte(out, number)
    } else {
        push_word(out, number)
    }
}

// An offset in an object, or of a name.
fn push_place_number(out: &mut Vec<u8>, flags: u8, number: u32) -> Result<(), AllocError>
    requires { number < 256 ^ target_width flags }
    ensures { IfOk result (λ _. out.new.items ≡ out.old.items ++ little_bytes (target_width flags) number) }
{
    if flags & WIDE_TARGET == 0 {
        push_word(out, number)
    } else {
        push_doubleword(out, number)
    }
}

// The ordinal of an import.
fn push_import_ordinal(out: &mut Vec<u8>, flags: u8, number: u32) -> Result<(), AllocError>
    requires { number < 256 ^ ordinal_width flags }
    ensures { IfOk result (λ _. out.new.items ≡ out.old.items ++ little_bytes (ordinal_width flags) number) }
{
    if flags & BYTE_ORDINAL == 0 {
        push_place_number(out, flags, number)
    } else {
        push_byte(out, number)
    }
}

/// Adds what is added to the target's address, where there is an additive.
pub fn push_additive(out: &mut Vec<u8>, flags: u8, additive: u32) -> Result<(), AllocError>
    requires { additive < 256 ^ additive_width flags }
    ensures { IfOk result (λ _. out.new.items ≡ out.old.items ++ additive_spelling flags additive) }
{
    if flags & ADDITIVE == 0 {
        Ok(())
    } else if flags & WIDE_ADDITIVE == 0 {
        push_word(out, additive)
    } else {
        push_doubleword(out, additive)
    }
}

// ---- targets

// An object's number and an offset. The target of a selector alone has no offset.
fn push_internal(
    out: &mut Vec<u8>,
    source: Source,
    flags: u8,
    object: u32,
    offset: u32,
) -> Result<(), AllocError>
    requires { InternalFits source flags object offset }
    ensures { IfOk result (λ _. out.new.items ≡ out.old.items ++ internal_spelling source flags object offset) }
{
    push_short_number(out, flags, object)?;
    match source {
        Source::Sel => Ok(()),
        _ => push_place_number(out, flags, offset),
    }
}

/// Adds where the address comes from.
pub fn push_target(
    out: &mut Vec<u8>,
    source: Source,
    flags: u8,
    target: FixTarget,
) -> Result<(), AllocError>
    requires { TargetFits source flags target }
    ensures { IfOk result (λ _. out.new.items ≡ out.old.items ++ target_spelling source flags target) }
{
    match target {
        FixTarget::Internal { object, offset } => push_internal(out, source, flags, object, offset),
        FixTarget::Ordinal { import, ordinal } => {
            push_short_number(out, flags, import)?;
            push_import_ordinal(out, flags, ordinal)
        }
        FixTarget::Named { import, name_at } => {
            push_short_number(out, flags, import)?;
            push_place_number(out, flags, name_at)
        }
        FixTarget::Own { ordinal } => push_short_number(out, flags, ordinal),
    }
}

// ---- offsets

/// Adds the offset of a source, a signed word.
pub fn push_offset(out: &mut Vec<u8>, source: Source, offset: i32) -> Result<(), AllocError>
    requires { OffsetFits source offset }
    ensures { IfOk result (λ _. out.new.items ≡ out.old.items ++ offset_spelling offset) }
{
    out.extend_from_slice(&(offset as i16).cast_unsigned().to_le_bytes())
}

/// Adds the offsets of sources, one after the other.
pub fn push_offsets(out: &mut Vec<u8>, source: Source, offsets: &[i32]) -> Result<(), AllocError>
    requires { All (OffsetFits source) offsets.now }
    ensures { IfOk result (λ _. out.new.items ≡ out.old.items ++ flat_map offset_spelling offsets.now) }
{
    for offset in offsets {
        push_offset(out, source, *offset)?;
    }
    Ok(())
}

// ---- flags

fn flag(set: bool, bit: u8) -> u8
    ensures { result ≡ flag set bit }
{
    if set { bit } else { 0 }
}

// The flags of a target's kind, of its fields' sizes and of the additive.
fn flags_with(
    code: u8,
    additive: u32,
    wide_target: bool,
    wide_number: bool,
    byte_ordinal: bool,
) -> u8
    requires { code < 4 }
    ensures { result ≡ flags_of (sizes_with additive wide_target wide_number byte_ordinal) code }
{
    code + flag(additive != 0, ADDITIVE)
        + flag(wide_target, WIDE_TARGET)
        + flag(additive > 0xFFFF, WIDE_ADDITIVE)
        + flag(wide_number, WIDE_NUMBER)
        + flag(byte_ordinal, BYTE_ORDINAL)
}

/// The flags byte of the shortest record.
pub fn flags_of(target: FixTarget, additive: u32) -> u8
    ensures { result ≡ shortest_flags target additive }
{
    match target {
        FixTarget::Internal { object, offset } => flags_with(
            0,
            additive,
            offset > 0xFFFF,
            object > 0xFF,
            false,
        ),
        FixTarget::Ordinal { import, ordinal } => flags_with(
            1,
            additive,
            ordinal > 0xFFFF,
            import > 0xFF,
            ordinal <= 0xFF,
        ),
        FixTarget::Named { import, name_at } => flags_with(
            2,
            additive,
            name_at > 0xFFFF,
            import > 0xFF,
            false,
        ),
        FixTarget::Own { ordinal } => flags_with(3, additive, false, ordinal > 0xFF, false),
    }
}
