//! Data and the fixups on it ("A0h LEDATA", "9Ch FIXUPP").

ghost use Rattle.std.specs.Prelude.{◌≡◌, ◌++◌, ◌+◌, ◌≤◌, ◌<◌, ◌&&◌, nat_le, IfOk, OnOk, length};
ghost use Rattle.std.specs.List.{AllByRecursion, prefix_len};
ghost use Rattle.obj_types.specs.declared.object.Piece.{Piece as PieceOf};
ghost use Rattle.omf_write.specs.ObjectBytes.{lies_on, ledata_bytes, data_records};
ghost use Rattle.omf_write.specs.ObjectFits.{PieceFits};

use crate::fields::push_index;
use crate::fixups::push_fixups;
use crate::framed::push_record;
use lx_types::NoMemory;
use obj_types::{FixAt, Piece, location_len};
use omf_frame::record_type::LEDATA_32;
use std::alloc::Global;

// Whether so many bytes from an offset on lie in the room after a start.
fn is_within(offset: u32, len: u8, start: u32, room: u32) -> bool
    ensures { result ≡ (nat_le start offset && nat_le (offset + len) (start + room)) }
{
    let end = u64::from(offset) + u64::from(len);
    let past = u64::from(start) + u64::from(room);
    start <= offset && end <= past
}

// Whether a fixup's location lies within a piece.
fn lies_on(piece: &Piece, fix: &FixAt) -> bool
    requires { length piece.now.bytes ≤ 1024 }
    ensures { result ≡ lies_on piece.now fix.now }
{
    let room = piece.bytes.as_slice().len() as u32;
    fix.seg == piece.seg && is_within(fix.offset, location_len(fix.loc), piece.offset, room)
}

// How many fixups from the first on lie within a piece.
fn count_on(piece: &Piece, fixes: &[FixAt]) -> usize
    requires { length piece.now.bytes ≤ 1024 }
    ensures { result ≡ prefix_len (lies_on piece.now) fixes.now }
{
    let mut count = 0;
    for fix in fixes {
        if !lies_on(piece, fix) {
            return count;
        }
        count += 1;
    }
    count
}

// The contents of an LEDATA record.
fn ledata_contents(alloc: Global, piece: &Piece) -> Result<Vec<u8>, NoMemory>
    requires { length piece.now.bytes ≤ 1024 }
    ensures is { IfOk result (λ contents. contents.items ≡ ledata_bytes piece.now) }
    ensures short { IfOk result (λ contents. length contents.items < 65535) }
    ensures fits { IfOk result (λ _. PieceFits piece.now) }
{
    let mut contents = Vec::new(alloc);
    push_index(&mut contents, piece.seg)?;
    contents.extend_from_slice(&piece.offset.to_le_bytes())?;
    contents.extend_from_slice(piece.bytes.as_slice())?;
    Ok(contents)
}

/// Writes a record for each piece, of at most 1,024 bytes, and after it those of the fixups on it, which stand in the
/// order of their pieces.
pub fn push_data(
    alloc: Global,
    out: &mut Vec<u8>,
    pieces: &[Piece],
    fixes: &[FixAt],
) -> Result<(), NoMemory>
    requires { AllByRecursion (λ (p : PieceOf). length p.bytes ≤ 1024) pieces.now }
    ensures is { OnOk result (out.new.items ≡ out.old.items ++ data_records pieces.now fixes.now) }
    ensures fits { OnOk result (AllByRecursion PieceFits pieces.now) }
{
    let mut place = 0;
    for piece in pieces {
        let contents = ledata_contents(alloc, piece)?;
        push_record(out, LEDATA_32, &contents)?;
        let past = place + count_on(piece, &fixes[place..]);
        push_fixups(alloc, out, piece.offset, &fixes[place..past])?;
        place = past;
    }
    Ok(())
}
