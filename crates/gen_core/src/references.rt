//! The data of a module's segment, and the references in it.

ghost use Rattle.std.specs.Prelude.{◌≡◌, ◌<◌, IfOk};
ghost use Rattle.gen_model.specs.Modules as modules;

use gen_model::{PIECE_LEN, PIECES, REFERENCES, SEGMENT_LEN};
use lx_types::{NoMemory, Seq};
use obj_types::{FixAt, Fixes, Frame, Goal, LOCATION_OFFSET_32, Piece, Pieces};
use std::alloc::Global;

fn zero_piece(alloc: Global, j: u32) -> Result<Piece, NoMemory>
    requires { j < PIECES }
    ensures { IfOk result (λ piece. piece ≡ modules.zero_piece j) }
{
    Ok(Piece {
        seg: 1,
        offset: PIECE_LEN * j,
        bytes: Seq::from_vec(vec![in alloc; 0; PIECE_LEN as usize]?),
    })
}

/// The segment's bytes, which are zeros.
pub fn pieces(alloc: Global) -> Result<Pieces, NoMemory>
    ensures { IfOk result (λ pieces. pieces ≡ modules.gen_pieces) }
{
    let mut pieces = Seq::new(alloc);
    for j in 0..PIECES {
        pieces.push(zero_piece(alloc, j)?)?;
    }
    Ok(pieces)
}

// What doubleword `i` of module `k` refers to: the segment, or the external.
fn goal_of(k: u32, i: u32) -> Goal
    ensures { result ≡ modules.goal_of k i }
{
    if k > 1 && i == 0 {
        Goal::Ext(1)
    } else {
        Goal::Seg(1)
    }
}

fn reference(k: u32, i: u32) -> FixAt
    requires { i < REFERENCES }
    ensures { result ≡ modules.reference k i }
{
    FixAt {
        seg: 1,
        offset: 4 * i,
        loc: LOCATION_OFFSET_32,
        selfrel: false,
        frame: Frame::Group(1),
        goal: goal_of(k, i),
        disp: 4 * i,
    }
}

/// The references of module `k`: each doubleword is the 32-bit offset of its own place, but that the first one of each module
/// after the first is the place of the external.
pub fn references(alloc: Global, k: u32) -> Result<Fixes, NoMemory>
    ensures { IfOk result (λ fixes. fixes ≡ modules.gen_fixes k) }
{
    let mut fixes = Seq::new(alloc);
    for i in 0..REFERENCES {
        fixes.push(reference(k, i))?;
    }
    Ok(fixes)
}
