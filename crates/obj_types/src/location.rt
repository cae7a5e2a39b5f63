//! The kinds of location that a fixup may have ("9Ch FIXUPP", the table of location types).

ghost use Rattle.std.specs.Prelude.{◌≡◌, ◌≤◌};
ghost use Rattle.obj_types.specs.Location.{location_len, has_selector};

/// The low byte of an address.
pub const LOCATION_BYTE: u8 = 0;

/// An offset of 16 bits.
pub const LOCATION_OFFSET_16: u8 = 1;

/// A selector.
pub const LOCATION_SELECTOR: u8 = 2;

/// An offset of 16 bits and a selector.
pub const LOCATION_FAR_16: u8 = 3;

/// An offset of 16 bits that a loader resolves.
pub const LOCATION_LOADER_16: u8 = 5;

/// An offset of 32 bits.
pub const LOCATION_OFFSET_32: u8 = 9;

/// An offset of 32 bits and a selector.
pub const LOCATION_FAR_32: u8 = 11;

/// An offset of 32 bits that a loader resolves.
pub const LOCATION_LOADER_32: u8 = 13;

/// The bytes of a location, and 0 for a kind that there is not.
pub fn location_len(loc: u8) -> u8
    ensures value { result ≡ location_len loc }
    ensures small { result ≤ 6 }
{
    match loc {
        LOCATION_BYTE => 1,
        LOCATION_OFFSET_16 | LOCATION_SELECTOR | LOCATION_LOADER_16 => 2,
        LOCATION_FAR_16 | LOCATION_OFFSET_32 | LOCATION_LOADER_32 => 4,
        LOCATION_FAR_32 => 6,
        _ => 0,
    }
}

/// Whether a location has a selector.
pub fn has_selector(loc: u8) -> bool
    ensures { result ≡ has_selector loc }
{
    matches!(loc, LOCATION_SELECTOR | LOCATION_FAR_16 | LOCATION_FAR_32)
}
