//! Words of hexadecimal digits in upper case.

ghost use Rattle.lx_types.specs.Escaped.{hex_byte, hex_address};
ghost use Rattle.check_model.specs.Told.{Has32, IsByte};
ghost use Rattle.dump_model.specs.Words.{Tells, IsDigit, IsPairOf};

// The value of a hexadecimal digit in upper case.
fn hex_value(byte: u8) -> Option<u8>
    ensures { IsDigit result byte }
{
    match byte {
        b'0'..=b'9' => Some(byte - b'0'),
        b'A'..=b'F' => Some(byte - b'A' + 10),
        _ => None,
    }
}

// The byte of two digits.
fn byte_of(high: u8, low: u8) -> Option<u32>
    ensures { IsPairOf result high low }
{
    let (Some(high), Some(low)) = (hex_value(high), hex_value(low)) else {
        return None;
    };
    Some(u32::from(high) * 16 + u32::from(low))
}

/// The number that a word is in eight digits.
pub(crate) fn address_of(word: &[u8]) -> Option<u32>
    ensures { Tells hex_address Has32 result word.now }
{
    let [a, b, c, d, e, f, g, h] = word else {
        return None;
    };
    let first = byte_of(*a, *b)?;
    let second = byte_of(*c, *d)?;
    let third = byte_of(*e, *f)?;
    let fourth = byte_of(*g, *h)?;
    Some(first * 0x100_0000 + second * 0x1_0000 + third * 0x100 + fourth)
}

/// The byte that a word is in two digits.
pub(crate) fn byte_in(word: &[u8]) -> Option<u8>
    ensures { Tells hex_byte IsByte result word.now }
{
    let [high, low] = word else {
        return None;
    };
    let byte = byte_of(*high, *low)?;
    Some(byte as u8)
}
