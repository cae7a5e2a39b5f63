//! The bytes of objects before the loader: data, and over it the fields of live fixups.

ghost use Rattle.std.specs.Prelude.{◌≡◌, ◌-◌, ℕ, OnOk, IfOk, map, if◌then◌else◌};
ghost use Rattle.std.specs.List.{range_with_len, enumerate_from};
ghost use Rattle.obj_types.specs.Location.{location_len as len_of_location};
ghost use Rattle.link_model.specs.Link.{Link};
ghost use Rattle.link_model.specs.Fixups.{fix_refusal};
ghost use Rattle.link_model.specs.Mean.{fixup_covers};
ghost use Rattle.link_fix.specs.Shown.{shown, piece_shown};
ghost use Rattle.link_fix.specs.Images.{byte_of};
ghost use Rattle.link_fix.specs.Pieces.{of_placed};
ghost use Rattle.link_fix.specs.Values.{field_byte, IsAccepted};

use crate::fixup::Fixup;
use crate::images::Images;
use crate::values::field_of;
use link_model::LaidObject;
use lx_types::{Bytes, NoMemory, Seq};
use obj_types::location_len;
use std::alloc::Global;

/// Data at its place in an object.
#[derive(Clone, Copy)]
pub struct PlacedPiece<'a> {
    pub object: u32,
    pub offset: usize,
    pub bytes: &'a [u8],
}

// Rows by object in which no byte stands, each with room for as many as its object's size.
fn empty_rows(alloc: Global, objects: &[LaidObject]) -> Result<Images, NoMemory>
    ensures { IfOk result (λ rows. (n : ℕ) (x : ℕ) → byte_of rows n x ≡ 0) }
{
    let mut rows = Images::new(alloc);
    for (index, object) in objects.iter().enumerate() {
        rows.reserve(alloc, index + 1, object.size as usize)?;
    }
    Ok(rows)
}

/// The data of these pieces, as rows by object with room for the objects' sizes; a later piece covers an earlier one.
pub(crate) fn placed_data(
    alloc: Global,
    pieces: &[PlacedPiece],
    objects: &[LaidObject],
) -> Result<Images, NoMemory>
    ensures { IfOk result (λ rows. (n : ℕ) (x : ℕ) → byte_of rows n x ≡ of_placed (map piece_shown pieces.now) n x) }
{
    let mut rows = empty_rows(alloc, objects)?;
    for piece in pieces {
        rows.paint(alloc, piece.object, piece.offset, piece.bytes)?;
    }
    Ok(rows)
}

/// Puts what stands in a fixup's field before the loader.
pub(crate) fn paint_field(alloc: Global, rows: &mut Images, q: &Fixup) -> Result<(), NoMemory>
    requires { IsAccepted q.now }
    ensures { OnOk result ((l : Link) (n : ℕ) (x : ℕ) → byte_of rows.new n x
        ≡ (if fixup_covers n x (shown q.now) then field_byte l (shown q.now) (x - q.now.offset) else byte_of rows.old n x)) }
{
    let field = field_of(q);
    let len = usize::from(location_len(q.loc));
    rows.paint(alloc, q.object, q.offset as usize, &field[..len])?;
    Ok(())
}

/// The bytes of each object, as many as its size, in the memory of their row.
pub(crate) fn object_rows(
    alloc: Global,
    rows: Images,
    objects: &[LaidObject],
) -> Result<Seq<Bytes>, NoMemory>
    ensures { IfOk result (λ all. all ≡ map (λ q. map (byte_of rows q.0) (range_with_len 0 q.1.size)) (enumerate_from 1 objects.now)) }
{
    let mut left = rows;
    let mut all = Seq::new(alloc);
    let mut number = 0;
    for object in objects {
        number += 1;
        let bytes = left.take_row(alloc, number, object.size as usize)?;
        all.push(Seq::from_vec(bytes))?;
    }
    Ok(all)
}
