//! The data of a link at its places in objects.

ghost use Rattle.std.specs.Prelude.{◌≡◌, ◌++◌, IfOk, OnOk, map, option_map, option_to_list};
ghost use Rattle.std.specs.List.{filter_map, flat_map, enumerate_from};
ghost use Rattle.link_model.specs.Link.{Link};
ghost use Rattle.link_model.specs.Mean as mean;
ghost use Rattle.link_types.specs.Places.{ArePlaces};
ghost use Rattle.link_fix.specs.Shown.{piece_shown};
ghost use Rattle.link_place.specs.PlacedData.{placed_at, placed_in};

use link_fix::PlacedPiece;
use link_types::Places;
use lx_types::{NoMemory, count};
use obj_types::{ObjModule, Piece};
use std::alloc::Global;

// A piece at its place, where its segment has one.
fn placed<'a>(places: &Places, module: u32, piece: &'a Piece) -> Option<PlacedPiece<'a>>
    ensures { option_map piece_shown result ≡ placed_at places.now «module» piece.entry.now }
{
    match places.spot(module, piece.seg) {
        None => None,
        Some((object, offset)) => Some(PlacedPiece {
            object,
            offset: offset as usize + piece.offset as usize,
            bytes: piece.bytes.as_slice(),
        }),
    }
}

// Adds a piece, where its segment has a place.
fn add_piece<'a>(
    found: &mut Vec<PlacedPiece<'a>>,
    places: &Places,
    module: u32,
    piece: &'a Piece,
) -> Result<(), NoMemory>
    ensures { OnOk result (map piece_shown found.new.items
        ≡ map piece_shown found.old.items ++ option_to_list (placed_at places.now «module» piece.entry.now)) }
{
    if let Some(at) = placed(places, module, piece) {
        found.push(at)?;
    }
    Ok(())
}

// Adds the pieces of a chosen module, in file order.
fn add_pieces<'a>(
    found: &mut Vec<PlacedPiece<'a>>,
    places: &Places,
    module: u32,
    pieces: &'a [Piece],
) -> Result<(), NoMemory>
    ensures { OnOk result (map piece_shown found.new.items
        ≡ map piece_shown found.old.items ++ filter_map (placed_at places.now «module») pieces.entry.now) }
{
    for piece in pieces {
        add_piece(found, places, module, piece)?;
    }
    Ok(())
}

// The data of these chosen modules.
fn pieces_among<'a>(
    alloc: Global,
    places: &Places,
    modules: &[&'a ObjModule],
) -> Result<Vec<PlacedPiece<'a>>, NoMemory>
    ensures { IfOk result (λ found. map piece_shown found.items
        ≡ flat_map (λ q. placed_in places.entry.now q.0 q.1) (enumerate_from 1 (map (λ m. m.now) modules.entry.now))) }
{
    let mut found = Vec::new(alloc);
    for (index, object) in modules.iter().enumerate() {
        add_pieces(
            &mut found,
            places,
            count(index + 1)?,
            object.pieces.as_slice(),
        )?;
    }
    Ok(found)
}

/// All data of a link, in chosen order and in file order, where these are its places.
pub(crate) fn pieces_of<'a>(
    alloc: Global,
    places: &Places,
    modules: &[&'a ObjModule],
) -> Result<Vec<PlacedPiece<'a>>, NoMemory>
    ensures { IfOk result (λ found. (l : Link) → l.modules ≡ map (λ m. m.now) modules.entry.now → ArePlaces l places.entry.now
        → map piece_shown found.items ≡ mean.pieces l) }
{
    let found = pieces_among(alloc, places, modules)?;
    Ok(found)
}
