//! The first two bytes of a FIXUP: what its location is, and where it lies.

ghost use Rattle.std.specs.Prelude.{◌≡◌, ◌<◌};
ghost use Rattle.omf_model.specs.Fixups.{is_location as location_there};
ghost use Rattle.omf_model.specs.Record.{is_self_relative as self_relative, location_of, offset_of};

use obj_types::{has_selector, location_len};

/// The kind of location in a fixup's first byte.
pub fn location(high: u8) -> u8
    ensures value { result ≡ location_of high }
    ensures small { result < 16 }
{
    high / 4 % 16
}

/// Whether the fixup with this first byte is self-relative.
pub fn is_self_relative(high: u8) -> bool
    ensures { result ≡ self_relative high }
{
    high / 64 % 2 == 0
}

/// Whether a fixup may begin with this byte: its location is there, and not self-relative where it has a selector.
pub fn is_location(high: u8) -> bool
    ensures { result ≡ location_there high }
{
    let loc = location(high);
    0 < location_len(loc) && !(is_self_relative(high) && has_selector(loc))
}

/// The offset in the last data record's data.
pub fn offset(high: u8, low: u8) -> u16
    ensures value { result ≡ offset_of high low }
    ensures small { result < 1024 }
{
    u16::from(high % 4) * 256 + u16::from(low)
}
