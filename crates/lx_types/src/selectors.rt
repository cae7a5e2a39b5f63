//! The selectors that stand for addresses in 16:16 and 16:32 pointers, and the offsets that they
//! leave.
//!
//! "32-bit Linear eXecutable Module Format": "Object Table" (flags), "Fixup Record Table" (16:16 pointers).

ghost use Rattle.std.specs.Prelude.{◌≡◌};
ghost use Rattle.lx_types.specs.Addresses.{tiled_selector, selector, selected_offset};

use crate::{BASE_UNIT, OBJECT_BIG, OBJECT_EXECUTABLE};

/// The flat selector of code.
pub const FLAT_CODE: u16 = 0x5B;

/// The flat selector of data.
pub const FLAT_DATA: u16 = 0x53;

/// The selector of the tile in which an address lies: its entry of the local descriptor table, with the
/// low three bits set. A tile has as many bytes as bases are multiples of.
pub fn tiled_selector(address: u32) -> u16
    ensures { result ≡ tiled_selector address }
{
    ((address / BASE_UNIT * 8 + 7) % BASE_UNIT) as u16
}

/// The selector for an address in an object with these flags. It is tiled where that is asked for,
/// and where the object is 16-bit; otherwise it is the flat selector of code or of data.
pub fn selector(tiled: bool, flags: u32, address: u32) -> u16
    ensures { result ≡ selector tiled flags address }
{
    if tiled || flags & OBJECT_BIG == 0 {
        tiled_selector(address)
    } else if flags & OBJECT_EXECUTABLE != 0 {
        FLAT_CODE
    } else {
        FLAT_DATA
    }
}

/// The offset that goes with the selector of an address: within the tile where that is tiled, and
/// otherwise the address.
pub fn selected_offset(tiled: bool, flags: u32, address: u32) -> u32
    ensures { result ≡ selected_offset tiled flags address }
{
    if tiled || flags & OBJECT_BIG == 0 {
        address % BASE_UNIT
    } else {
        address
    }
}
