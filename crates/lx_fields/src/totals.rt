//! Numbers at places of a file, where what is past its end counts as zeros: of a file that was read as a module all that is asked
//! for is there, so no caller has a case for its end.

ghost use Rattle.std.specs.Prelude.{◌≡◌, ◌+◌, ◌<◌, ◌^◌, length, slice_index};
ghost use Rattle.lx_model.specs.Reading.{number_at};
ghost use Rattle.lx_model.specs.Header.{header_place, field, table};

use lx_model::header_fields::{HEADER_PLACE, LX_SIGNATURE};

// The byte at a place, and 0 past the end.
fn byte_at(file: &[u8], at: usize) -> u8
    ensures { result ≡ slice_index file.now at }
{
    match file.get(at) {
        Some(byte) => *byte,
        None => 0,
    }
}

/// The number in the two bytes at a place.
pub fn word_at(file: &[u8], at: usize) -> u16
    requires { at + 2 < 2 ^ 63 }
    ensures { result ≡ number_at 2 file.now at }
{
    u16::from(byte_at(file, at)) + 256 * u16::from(byte_at(file, at + 1))
}

/// The number in the four bytes at a place.
pub fn doubleword_at(file: &[u8], at: usize) -> u32
    requires { at + 4 < 2 ^ 63 }
    ensures { result ≡ number_at 4 file.now at }
{
    u32::from(word_at(file, at)) + 65536 * u32::from(word_at(file, at + 2))
}

// Where the header stands: at 0, or where a program for DOS says.
#[tactic(auto, unfolding(lx_model::specs::Header::header_place))]
fn place_of_header(file: &[u8]) -> u32
    ensures { result ≡ header_place file.now }
{
    if word_at(file, 0) == LX_SIGNATURE {
        0
    } else {
        doubleword_at(file, HEADER_PLACE)
    }
}

/// A field of the header, by its offset there.
#[tactic(auto, unfolding(lx_model::specs::Header::field))]
pub fn header_field(file: &[u8], offset: u8) -> u32
    ensures { result ≡ field file.now offset }
{
    doubleword_at(file, place_of_header(file) as usize + usize::from(offset))
}

/// Where a table stands whose offset from the header is in a field.
pub fn table_place(file: &[u8], offset: u8) -> u64
    ensures place { result ≡ table file.now offset }
    ensures small { result < 2 ^ 33 }
{
    u64::from(place_of_header(file)) + u64::from(header_field(file, offset))
}
