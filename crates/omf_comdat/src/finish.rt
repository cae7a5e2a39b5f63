//! The module that an unfinished one is at its end.

ghost use Rattle.std.specs.Prelude.{◌≡◌, ◌+◌, ◌<◌, ◌≤◌, ◌++◌, ◌∷◌, [], List, IfOk, get_or, length, map};
ghost use Rattle.std.specs.List.{All, enumerate_from};
ghost use Rattle.obj_types.specs.declared.object.Piece.{Piece as PieceOf};
ghost use Rattle.omf_model.specs.Begun.{IsWholeSoFar};
ghost use Rattle.omf_model.specs.Finished as done;
ghost use Rattle.omf_comdat.specs.Finishing.{HasIndex, PlaceHasIndex, with_member, ends_for, ArePlaced};

use lx_types::{NoMemory, Seq, count};
use obj_types::{
    BegunComdat, BegunComdats, COMDAT_BASE, Comdat, Comdats, Fixes, Groups, MAX_DATA, ObjModule,
    ObjParts, Piece, Pieces, PubPlace, Pubs, Seg, Segs,
};
use std::alloc::Global;
use std::mem::replace;

/// The index after `segs` segments for the number of a segment.
fn index_for(segs: u32, number: u32) -> u32
    requires { HasIndex segs number }
    ensures { result ≡ done.index_for segs number }
{
    if number <= COMDAT_BASE {
        number
    } else {
        segs + (number - COMDAT_BASE)
    }
}

fn place_for(segs: u32, place: PubPlace) -> PubPlace
    requires { PlaceHasIndex segs place }
    ensures { result ≡ done.place_for segs place }
{
    match place {
        PubPlace::In { seg, offset } => PubPlace::In {
            seg: index_for(segs, seg),
            offset,
        },
        PubPlace::Const { value } => PubPlace::Const { value },
    }
}

fn finish_pubs(pubs: Pubs, segs: u32) -> Pubs
    requires { All (λ p. PlaceHasIndex segs p.place) pubs }
    ensures { result ≡ map (done.public_for segs) pubs }
{
    let mut all = pubs.into_vec();
    let mut next = 0;
    'pubs: while next < all.len() {
        let place = all[next].place;
        all[next].place = place_for(segs, place);
        next += 1;
    }
    Seq::from_vec(all)
}

fn finish_pieces(pieces: Pieces, segs: u32) -> Pieces
    requires { All (λ p. HasIndex segs p.seg) pieces }
    ensures { result ≡ map (done.piece_for segs) pieces }
{
    let mut all = pieces.into_vec();
    let mut next = 0;
    'pieces: while next < all.len() {
        let number = all[next].seg;
        all[next].seg = index_for(segs, number);
        next += 1;
    }
    Seq::from_vec(all)
}

fn finish_fixes(fixes: Fixes, segs: u32) -> Fixes
    requires { All (λ f. HasIndex segs f.seg) fixes }
    ensures { result ≡ map (done.fix_for segs) fixes }
{
    let mut all = fixes.into_vec();
    let mut next = 0;
    'fixes: while next < all.len() {
        let number = all[next].seg;
        all[next].seg = index_for(segs, number);
        next += 1;
    }
    Seq::from_vec(all)
}

/// Notes the end of a piece, where it is a COMDAT's: `ends` has the greatest end of the data of each COMDAT.
fn note_end(ends: &mut [u32], piece: &Piece)
    requires { COMDAT_BASE < piece.now.seg → piece.now.offset + length piece.now.bytes ≤ MAX_DATA }
    ensures { (before : List PieceOf) → ends.old ≡ ends_for before (length ends.old) → ends.new ≡ ends_for (before ++ piece.now ∷ []) (length ends.old) }
{
    if piece.seg <= COMDAT_BASE {
        return;
    }
    let place = (piece.seg - COMDAT_BASE) as usize - 1;
    if ends.len() <= place {
        return;
    }
    let end = piece.offset + piece.bytes.as_slice().len() as u32;
    ends[place] = ends[place].max(end);
}

/// The greatest end of the data of each COMDAT.
fn ends_of(alloc: Global, pieces: &Pieces, count: usize) -> Result<Vec<u32>, NoMemory>
    requires { All (λ p. COMDAT_BASE < p.seg → p.offset + length p.bytes ≤ MAX_DATA) pieces.now }
    ensures { IfOk result (λ ends. ends.items ≡ ends_for pieces.now count) }
{
    let mut ends = vec![in alloc; 0; count]?;
    for piece in pieces.as_slice() {
        note_end(&mut ends, piece);
    }
    Ok(ends)
}

/// Adds a segment to the members of a group, FLAT aside. Group 0 is none.
fn add_member(groups: Groups, group: u32, seg: u32) -> Result<Groups, NoMemory>
    ensures { IfOk result (λ more. more ≡ map (with_member group seg) (enumerate_from 1 groups)) }
{
    let mut all = groups.into_vec();
    if group == 0 || all.len() < group as usize {
        return Ok(Seq::from_vec(all));
    }
    let place = group as usize - 1;
    if all[place].name.bytes() == b"FLAT".as_slice() {
        return Ok(Seq::from_vec(all));
    }
    all[place].members.push(seg)?;
    Ok(Seq::from_vec(all))
}

/// The segments and the groups of a module with those of its COMDATs, and these.
#[derive(Drop)]
struct Placed {
    segs: Segs,
    groups: Groups,
    comdats: Comdats,
}

/// A segment with the length that stands at a place, where one does.
fn with_len(seg: Seg, lens: &[u32], place: usize) -> Seg
    ensures { result ≡ record seg { len = get_or lens.now place seg.len } }
{
    let mut seg = seg;
    if place < lens.len() {
        seg.len = lens[place];
    }
    seg
}

/// Puts the segments of COMDATs, with their lengths, after the others and into their groups.
fn put_after(
    alloc: Global,
    begun: BegunComdats,
    lens: &[u32],
    segs: Segs,
    groups: Groups,
) -> Result<Placed, NoMemory>
    ensures { IfOk result (ArePlaced segs groups lens.now begun) }
{
    let mut segs = segs;
    let mut groups = groups;
    let mut comdats = Seq::new(alloc);
    for own in begun.into_vec() {
        let BegunComdat {
            name,
            selection,
            seg,
            group,
        } = own;
        let place = comdats.as_slice().len();
        segs.push(with_len(seg, lens, place))?;
        let seg = count(segs.as_slice().len())?;
        groups = add_member(groups, group, seg)?;
        comdats.push(Comdat {
            name,
            seg,
            selection,
        })?;
    }
    Ok(Placed {
        segs,
        groups,
        comdats,
    })
}

/// The module of the unfinished one, which has no COMDATs: all that it names by number is named by index.
fn without_comdats(alloc: Global, parts: ObjParts) -> ObjModule
    requires whole { IsWholeSoFar parts }
    requires none { parts.comdats ≡ [] }
    ensures { result ≡ done.finished parts }
{
    let mut module = parts.module;
    module.comdats = Seq::new(alloc);
    module
}

/// The module of the unfinished one, with the segments of its COMDATs after all others.
fn with_comdats(alloc: Global, parts: ObjParts) -> Result<ObjModule, NoMemory>
    requires { IsWholeSoFar parts }
    ensures { IfOk result (λ m. m ≡ done.finished parts) }
{
    let begun = parts.comdats;
    let mut module = parts.module;
    let begun_count = begun.as_slice().len();
    let segs = count(module.segs.as_slice().len())?;
    let _all = count(module.segs.as_slice().len() + begun_count)?;
    let lens = ends_of(alloc, &module.pieces, begun_count)?;
    let others = replace(&mut module.segs, Seq::new(alloc));
    let groups = replace(&mut module.groups, Seq::new(alloc));
    let own = put_after(alloc, begun, &lens, others, groups)?;
    module.segs = own.segs;
    module.groups = own.groups;
    module.comdats = own.comdats;
    module.pubs = finish_pubs(replace(&mut module.pubs, Seq::new(alloc)), segs);
    module.pieces = finish_pieces(replace(&mut module.pieces, Seq::new(alloc)), segs);
    module.fixes = finish_fixes(replace(&mut module.fixes, Seq::new(alloc)), segs);
    Ok(module)
}

/// The module of the unfinished one, with the segments of its COMDATs after all others. Most modules have none, above all
/// those of import libraries.
pub fn finished(alloc: Global, parts: ObjParts) -> Result<ObjModule, NoMemory>
    requires { IsWholeSoFar parts }
    ensures { IfOk result (λ m. m ≡ done.finished parts) }
{
    if parts.comdats.as_slice().is_empty() {
        return Ok(without_comdats(alloc, parts));
    }
    with_comdats(alloc, parts)
}
