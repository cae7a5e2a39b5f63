//! The offset part of a fixup's location ("9Ch FIXUPP", location types).

ghost use Rattle.std.specs.Prelude.{◌≡◌, ◌≤◌};
ghost use Rattle.link_model.specs.Fixups.{offset_width as width_of, is_short as short_location};

use obj_types::{
    LOCATION_BYTE, LOCATION_FAR_16, LOCATION_LOADER_16, LOCATION_OFFSET_16, LOCATION_SELECTOR,
};

/// The bytes of a location's offset part, in which a number stands.
pub fn offset_width(loc: u8) -> u8
    ensures value { result ≡ width_of loc }
    ensures small { result ≤ 4 }
{
    match loc {
        LOCATION_BYTE => 1,
        LOCATION_SELECTOR => 0,
        LOCATION_OFFSET_16 | LOCATION_FAR_16 | LOCATION_LOADER_16 => 2,
        _ => 4,
    }
}

/// Whether a location has an offset of 8 or 16 bits and no selector.
pub fn is_short(loc: u8) -> bool
    ensures { result ≡ short_location loc }
{
    loc == LOCATION_BYTE || loc == LOCATION_OFFSET_16 || loc == LOCATION_LOADER_16
}
