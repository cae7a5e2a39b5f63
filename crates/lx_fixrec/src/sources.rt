//! The source byte of a record.

ghost use Rattle.std.specs.Prelude.{◌≡◌, ◌%◌, option_map};
ghost use Rattle.lx_model.specs.Sources.{source_size, code_of, has_selector, source_of_code, source_of_byte, source_byte};
ghost use Rattle.lx_fixrec.specs.Reads.{kind_of};

use lx_model::{ALIAS, LISTED};
use lx_types::Source;

/// What a source byte says: the source, whether its selector is that of the alias, and whether
/// offsets are listed.
#[derive(Clone, Copy)]
pub struct Kind {
    pub source: Source,
    pub alias: bool,
    pub listed: bool,
}

/// How many bytes a source has.
pub fn source_size(source: Source) -> u32
    ensures { result ≡ source_size source }
{
    match source {
        Source::Byte => 1,
        Source::Sel | Source::Off16 => 2,
        Source::Far16 | Source::Off32 | Source::Self32 => 4,
        Source::Far32 => 6,
    }
}

/// The low four bits of the source byte.
pub fn code_of(source: Source) -> u8
    ensures { result ≡ code_of source }
{
    match source {
        Source::Byte => 0,
        Source::Sel => 2,
        Source::Far16 => 3,
        Source::Off16 => 5,
        Source::Far32 => 6,
        Source::Off32 => 7,
        Source::Self32 => 8,
    }
}

/// Whether a source ends with a selector or is one.
pub fn has_selector(source: Source) -> bool
    ensures { result ≡ has_selector source }
{
    matches!(source, Source::Sel | Source::Far16 | Source::Far32)
}

// The source that the low four bits of a source byte mean.
fn source_with(code: u8) -> Option<Source>
    ensures { result ≡ source_of_code code }
{
    match code {
        0 => Some(Source::Byte),
        2 => Some(Source::Sel),
        3 => Some(Source::Far16),
        5 => Some(Source::Off16),
        6 => Some(Source::Far32),
        7 => Some(Source::Off32),
        8 => Some(Source::Self32),
        _ => None,
    }
}

/// What a source byte says, where it is allowed: the alias bit for a source with a selector alone,
/// and the two highest bits never.
pub fn kind_of(byte: u8) -> Option<Kind>
    ensures { option_map kind_of result ≡ source_of_byte byte }
{
    let source = source_with(byte % 16)?;
    let alias = byte & ALIAS != 0;
    let listed = byte & LISTED != 0;
    if byte >= 0x40 || alias && !has_selector(source) {
        return None;
    }
    Some(Kind {
        source,
        alias,
        listed,
    })
}

/// The source byte: the source, whether its selector is that of the alias, and whether offsets are
/// listed. The alias bit is for a source with a selector alone.
pub fn source_byte(source: Source, alias: bool, listed: bool) -> u8
    ensures { result ≡ source_byte (record { source = source; alias = alias; listed = listed }) }
{
    code_of(source) + if alias { ALIAS } else { 0 } + if listed { LISTED } else { 0 }
}
