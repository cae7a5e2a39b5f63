//! What is kept of an input.

ghost use Rattle.std.specs.Prelude.{◌≡◌, not, IfOk, filter, map};
ghost use Rattle.std.specs.Ordering.{nat_cmp};
ghost use Rattle.std.specs.BTreeSet.{contains};
ghost use Rattle.std.specs.List.{enumerate_from};
ghost use Rattle.link_model.specs.Kept as what;
ghost use Rattle.comdat_core.specs.Keeping.{without_lists, without_taken};
ghost use Rattle.comdat_core.specs.TakenOut.{IsTakenOut};

use crate::copies::{
    copied_def, copied_exports, copied_exts, copied_imports, copied_names, copied_piece,
    copied_pub, copied_seg,
};
use crate::taking::{Taken, TakenOut, segs_of};
use lx_types::{NoMemory, Seq, count};
use obj_types::{
    FixAt, Fixes, Group, Groups, LinkInput, Members, ObjModule, ObjModules, Piece, Pieces, Pub,
    PubPlace, Pubs, Seg, Segs,
};
use std::alloc::Global;
use std::collections::BTreeSet;

/// Segments that are taken out, by their indices.
type Gone = BTreeSet<u32>;

fn kept_segs(alloc: Global, segs: &[Seg], gone: &Gone) -> Result<Segs, NoMemory>
    ensures { IfOk result (λ kept. kept ≡ map (λ q. what.seg_without (contains nat_cmp gone.now) q.0 q.1) (enumerate_from 1 segs.now)) }
{
    let mut kept = Seq::new(alloc);
    for (index, seg) in segs.iter().enumerate() {
        let taken = gone.contains(&count(index + 1)?);
        kept.push(copied_seg(alloc, seg, taken)?)?;
    }
    Ok(kept)
}

fn kept_members(alloc: Global, members: &[u32], gone: &Gone) -> Result<Members, NoMemory>
    ensures { IfOk result (λ kept. kept ≡ filter (λ i. not (contains nat_cmp gone.now i)) members.now) }
{
    let mut kept = Seq::new(alloc);
    for seg in members {
        if !gone.contains(seg) {
            kept.push(*seg)?;
        }
    }
    Ok(kept)
}

fn kept_group(alloc: Global, group: &Group, gone: &Gone) -> Result<Group, NoMemory>
    ensures { IfOk result (λ kept. kept ≡ what.group_without (contains nat_cmp gone.now) group.now) }
{
    Ok(Group {
        name: group.name.copied(alloc)?,
        members: kept_members(alloc, group.members.as_slice(), gone)?,
    })
}

fn kept_groups(alloc: Global, groups: &[Group], gone: &Gone) -> Result<Groups, NoMemory>
    ensures { IfOk result (λ kept. kept ≡ map (what.group_without (contains nat_cmp gone.now)) groups.now) }
{
    let mut kept = Seq::new(alloc);
    for group in groups {
        kept.push(kept_group(alloc, group, gone)?)?;
    }
    Ok(kept)
}

// Whether a public is in a segment that is taken out.
fn is_in(gone: &Gone, place: PubPlace) -> bool
    ensures { result ≡ what.is_place_in (contains nat_cmp gone.now) place }
{
    match place {
        PubPlace::In { seg, .. } => gone.contains(&seg),
        PubPlace::Const { .. } => false,
    }
}

fn kept_pubs(alloc: Global, publics: &[Pub], gone: &Gone) -> Result<Pubs, NoMemory>
    ensures { IfOk result (λ kept. kept ≡ filter (λ p. not (what.is_place_in (contains nat_cmp gone.now) p.place)) publics.now) }
{
    let mut kept = Seq::new(alloc);
    for public in publics {
        if !is_in(gone, public.place) {
            kept.push(copied_pub(alloc, public)?)?;
        }
    }
    Ok(kept)
}

fn kept_pieces(alloc: Global, pieces: &[Piece], gone: &Gone) -> Result<Pieces, NoMemory>
    ensures { IfOk result (λ kept. kept ≡ filter (λ p. not (contains nat_cmp gone.now p.seg)) pieces.now) }
{
    let mut kept = Seq::new(alloc);
    for piece in pieces {
        if !gone.contains(&piece.seg) {
            kept.push(copied_piece(alloc, piece)?)?;
        }
    }
    Ok(kept)
}

fn kept_fixes(alloc: Global, fixes: &[FixAt], gone: &Gone) -> Result<Fixes, NoMemory>
    ensures { IfOk result (λ kept. kept ≡ filter (λ f. not (contains nat_cmp gone.now f.seg)) fixes.now) }
{
    let mut kept = Seq::new(alloc);
    for fix in fixes {
        if !gone.contains(&fix.seg) {
            kept.push(*fix)?;
        }
    }
    Ok(kept)
}

// A module without these segments, and without COMDATs.
fn module_without(alloc: Global, object: &ObjModule, gone: &Gone) -> Result<ObjModule, NoMemory>
    ensures { IfOk result (λ kept. kept ≡ what.without (contains nat_cmp gone.now) object.now) }
{
    Ok(ObjModule {
        name: object.name.copied(alloc)?,
        segs: kept_segs(alloc, object.segs.as_slice(), gone)?,
        groups: kept_groups(alloc, object.groups.as_slice(), gone)?,
        pubs: kept_pubs(alloc, object.pubs.as_slice(), gone)?,
        exts: copied_exts(alloc, &object.exts)?,
        pieces: kept_pieces(alloc, object.pieces.as_slice(), gone)?,
        fixes: kept_fixes(alloc, object.fixes.as_slice(), gone)?,
        imports: copied_imports(alloc, &object.imports)?,
        exports: copied_exports(alloc, &object.exports)?,
        deflibs: copied_names(alloc, &object.deflibs)?,
        start: object.start,
        comdats: Seq::new(alloc),
    })
}

// A module without these COMDATs.
fn kept_module(
    alloc: Global,
    object: &ObjModule,
    taken: &[Taken<'_>],
) -> Result<ObjModule, NoMemory>
    ensures { IfOk result (λ kept. kept ≡ without_taken object.now taken.now) }
{
    let gone = segs_of(alloc, taken)?;
    module_without(alloc, object, &gone)
}

// Each module without what is taken out of it.
fn kept_modules(
    alloc: Global,
    modules: &[ObjModule],
    taken: &[Vec<Taken<'_>>],
) -> Result<ObjModules, NoMemory>
    ensures { IfOk result (λ kept. kept ≡ without_lists modules.now taken.now) }
{
    let mut kept = Seq::new(alloc);
    for (object, taken) in modules.iter().zip(taken) {
        kept.push(kept_module(alloc, object, taken.as_slice())?)?;
    }
    Ok(kept)
}

/// What is kept of an input: of each name that COMDATs share the first COMDAT, in order of object files and then library
/// modules. Of every other one the public, the data and the fixups on it are taken out, its segment leaves its groups and
/// is as one of debug data. The modules have no COMDATs then. `out` is what is taken out of the input.
pub fn keep(alloc: Global, input: &LinkInput, out: &TakenOut<'_>) -> Result<LinkInput, NoMemory>
    requires { IsTakenOut input.now out.now }
    ensures { IfOk result (λ kept. kept ≡ what.Kept input.now) }
{
    Ok(LinkInput {
        objects: kept_modules(alloc, input.objects.as_slice(), out.objects.as_slice())?,
        libs: kept_modules(alloc, input.libs.as_slice(), out.libs.as_slice())?,
        def: copied_def(alloc, &input.def)?,
        stem: input.stem.copied(alloc)?,
    })
}
