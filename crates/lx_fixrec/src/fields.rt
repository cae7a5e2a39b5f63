//! The fields of a record: numbers, the target, the additive and the offsets.

ghost use Rattle.std.specs.Prelude.{◌≡◌};
ghost use Rattle.lx_model.specs.Reading.{number};
ghost use Rattle.lx_model.specs.RecordFields.{number_width, target_width, ordinal_width, target_at, additive_at, offset_at};
ghost use Rattle.lx_types.specs.Answers.{Reads, told_as};
ghost use Rattle.lx_fixrec.specs.Reads.{refusal, internal_offset_at};

use crate::refusal::RecRefusal;
use crate::sources::source_size;
use lx_fields::Fields;
use lx_model::{ADDITIVE, BYTE_ORDINAL, WIDE_ADDITIVE, WIDE_NUMBER, WIDE_TARGET};
use lx_types::{FixTarget, PAGE_SIZE, Source};

// ---- numbers

// The number of an object or a module, or an ordinal of the entry table.
fn short_number(fields: &mut Fields, flags: u8) -> Result<u32, RecRefusal>
    ensures { Reads (λ n. n) (told_as refusal) result (number (number_width flags)) fields.old fields.new }
{
    if flags & WIDE_NUMBER == 0 {
        Ok(u32::from(fields.byte()?))
    } else {
        Ok(u32::from(fields.word()?))
    }
}

// An offset in an object, or of a name.
fn place_number(fields: &mut Fields, flags: u8) -> Result<u32, RecRefusal>
    ensures { Reads (λ n. n) (told_as refusal) result (number (target_width flags)) fields.old fields.new }
{
    if flags & WIDE_TARGET == 0 {
        Ok(u32::from(fields.word()?))
    } else {
        Ok(fields.doubleword()?)
    }
}

// The ordinal of an import.
fn import_ordinal(fields: &mut Fields, flags: u8) -> Result<u32, RecRefusal>
    ensures { Reads (λ n. n) (told_as refusal) result (number (ordinal_width flags)) fields.old fields.new }
{
    if flags & BYTE_ORDINAL == 0 {
        place_number(fields, flags)
    } else {
        Ok(u32::from(fields.byte()?))
    }
}

/// What is added to the target's address: 0 where the record has no additive.
#[tactic(auto, unfolding(lx_model::specs::RecordFields::additive_at))]
pub fn additive(fields: &mut Fields, flags: u8) -> Result<u32, RecRefusal>
    ensures { Reads (λ n. n) (told_as refusal) result (additive_at flags) fields.old fields.new }
{
    if flags & ADDITIVE == 0 {
        Ok(0)
    } else if flags & WIDE_ADDITIVE == 0 {
        Ok(u32::from(fields.word()?))
    } else {
        Ok(fields.doubleword()?)
    }
}

// ---- targets

// The offset in an object. The target of a selector alone has none.
fn internal_offset(fields: &mut Fields, source: Source, flags: u8) -> Result<u32, RecRefusal>
    ensures { Reads (λ n. n) (told_as refusal) result (internal_offset_at source flags) fields.old fields.new }
{
    match source {
        Source::Sel => Ok(0),
        _ => place_number(fields, flags),
    }
}

/// Where the address comes from, by the two low bits of the flags.
#[tactic(auto, using(crate::proofs::Targets::target_is))]
pub fn target(fields: &mut Fields, source: Source, flags: u8) -> Result<FixTarget, RecRefusal>
    ensures { Reads (λ t. t) (told_as refusal) result (target_at source flags) fields.old fields.new }
{
    let number = short_number(fields, flags)?;
    Ok(match flags % 4 {
        0 => FixTarget::Internal {
            object: number,
            offset: internal_offset(fields, source, flags)?,
        },
        1 => FixTarget::Ordinal {
            import: number,
            ordinal: import_ordinal(fields, flags)?,
        },
        2 => FixTarget::Named {
            import: number,
            name_at: place_number(fields, flags)?,
        },
        _ => FixTarget::Own { ordinal: number },
    })
}

// ---- offsets

/// Where a source begins: within the page, or before it so that the source has a byte in it.
pub fn offset(fields: &mut Fields, source: Source) -> Result<i32, RecRefusal>
    ensures { Reads (λ o. o) (told_as refusal) result (offset_at source) fields.old fields.new }
{
    let at = fields.at();
    let word = fields.word()?;
    let place = u32::from(word);
    if place < PAGE_SIZE || place + source_size(source) > 0x1_0000 {
        Ok(i32::from(word.cast_signed()))
    } else {
        Err(RecRefusal::Straddle { at })
    }
}
