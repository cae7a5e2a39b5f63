//! The numbers that stand in the locations of a module's fixups, in the data of its own segments.

ghost use Rattle.std.specs.Prelude.{◌≡◌, ◌<◌, ◌^◌, ℕ, IfOk, slice_index};
ghost use Rattle.lx_bytes.specs.LittleEndian.{little};
ghost use Rattle.obj_types.specs.declared.object.ObjModule.{ObjModule};
ghost use Rattle.link_model.specs.Fixups.{standing_in};
ghost use Rattle.link_fix.specs.Images.{byte_of};
ghost use Rattle.link_fix.specs.Standing.{bytes_from, number_from, standing_from, IsDataOf};
ghost use Rattle.link_fix.specs.Pieces.{of_pieces};

use crate::images::Images;
use crate::location::offset_width;
use lx_types::NoMemory;
use obj_types::{
    FixAt, LOCATION_BYTE, LOCATION_FAR_16, LOCATION_LOADER_16, LOCATION_OFFSET_16,
    LOCATION_SELECTOR, Piece,
};
use std::alloc::Global;

/// The data of these pieces of a module, as rows by segment; a later piece covers an earlier one.
pub fn data_of(alloc: Global, pieces: &[Piece]) -> Result<Images, NoMemory>
    ensures { IfOk result (λ rows. (seg : ℕ) (x : ℕ) → byte_of rows seg x ≡ of_pieces pieces.now seg x) }
{
    let mut data = Images::new(alloc);
    for piece in pieces {
        data.paint(
            alloc,
            piece.seg,
            piece.offset as usize,
            piece.bytes.as_slice(),
        )?;
    }
    Ok(data)
}

// A byte of a row, and 0 after its end.
fn byte_in(row: &[u8], at: usize) -> u8
    ensures { result ≡ slice_index row.now at }
{
    match row.get(at) {
        None => 0,
        Some(byte) => *byte,
    }
}

fn two_bytes(row: &[u8], at: usize) -> u32
    requires { at < 2 ^ 40 }
    ensures value { result ≡ little (bytes_from (slice_index row.now) at 2) }
    ensures small { result < 2 ^ 16 }
{
    u32::from(byte_in(row, at)) + 256 * u32::from(byte_in(row, at + 1))
}

fn four_bytes(row: &[u8], at: usize) -> u32
    requires { at < 2 ^ 32 }
    ensures { result ≡ little (bytes_from (slice_index row.now) at 4) }
{
    two_bytes(row, at) + 65_536 * two_bytes(row, at + 2)
}

// The number in the offset part of a location, where this is the data of its segment.
fn number(row: &[u8], f: &FixAt) -> u32
    ensures value { result ≡ number_from (slice_index row.now) f.now }
    ensures byte { f.now.loc ≡ 0 → result < 256 }
{
    let at = f.offset as usize;
    match f.loc {
        LOCATION_BYTE => u32::from(byte_in(row, at)),
        LOCATION_OFFSET_16 | LOCATION_FAR_16 | LOCATION_LOADER_16 => two_bytes(row, at),
        LOCATION_SELECTOR => 0,
        _ => four_bytes(row, at),
    }
}

// The number that stands in a location, where this is the data of its segment; that of a self-relative low byte has a sign.
fn standing(row: &[u8], f: &FixAt) -> u32
    ensures { result ≡ standing_from (slice_index row.now) f.now }
{
    let number = number(row, f);
    if f.selfrel && f.loc == LOCATION_BYTE && 128 <= number {
        number + 0xFFFF_FF00
    } else {
        number
    }
}

/// The number that stands in the location of a module's fixup, where these rows are the module's data by segment: what the
/// module's own data has there, whatever other modules put at the same place.
pub fn standing_of(rows: &Images, f: &FixAt) -> u32
    ensures { (m : ObjModule) → IsDataOf rows.now m → result ≡ standing_in m f.now }
{
    standing(rows.held(f.seg), f)
}
