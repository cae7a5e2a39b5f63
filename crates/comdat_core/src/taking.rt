//! Which COMDATs are taken out, and which stay in their place.

ghost use Rattle.std.specs.Prelude.{◌≡◌, ◌+◌, ◌==◌, ◌&&◌, ℕ, List, [], IfOk, MatchBool, OnOk, length, map};
ghost use Rattle.std.specs.Ordering.{nat_cmp};
ghost use Rattle.std.specs.BTreeSet.{contains};
ghost use Rattle.std.specs.List.{All, list_any};
ghost use Rattle.obj_types.specs.declared.object.ObjModule.{ObjModule};
ghost use Rattle.obj_types.specs.Whole.{is_in_seg};
ghost use Rattle.link_model.specs.Words.{option_any};
ghost use Rattle.link_model.specs.Kept.{is_seg_of};
ghost use Rattle.link_model.specs.KeptLaws.{HasNoComdats};
ghost use Rattle.name_table.specs.Entries.{value_named};
ghost use Rattle.comdat_core.specs.TakenOut.{IsTakenOut};
ghost use Rattle.comdat_core.specs.Taking.{comdat_of, owned_in, AreFirsts, AreSeen, IsSeen, table_with, taken_with};

use lx_types::NoMemory;
use name_table::NameTable;
use obj_types::{Comdat, LinkInput, ObjModule, Pub, PubPlace};
use std::alloc::Global;
use std::collections::BTreeSet;

/// A COMDAT in its module.
#[derive(Clone, Copy)]
pub struct Owned<'a> {
    pub owner: &'a ObjModule,
    pub comdat: &'a Comdat,
}

/// A COMDAT, with the place of its module among the object files and then the library modules.
#[derive(Clone, Copy)]
pub struct Placed<'a> {
    pub place: usize,
    pub own: Owned<'a>,
}

/// A COMDAT that is taken out, and the first one of its name, which stays.
#[derive(Clone, Copy)]
pub struct Taken<'a> {
    pub own: Owned<'a>,
    pub first: Placed<'a>,
}

/// The first COMDAT of each name.
pub type Firsts<'a> = NameTable<Placed<'a>>;

fn have_comdats(modules: &[ObjModule]) -> bool
    ensures { MatchBool result (All (λ (m : ObjModule). m.comdats ≡ []) modules.now → ⊥) (All (λ (m : ObjModule). m.comdats ≡ []) modules.now) }
{
    for object in modules {
        if !object.comdats.as_slice().is_empty() {
            return true;
        }
    }
    false
}

/// Whether a module of the input has COMDATs. Where none has, all is kept as it is, and none of it clashes.
pub fn has_comdats(input: &LinkInput) -> bool
    ensures { MatchBool result (HasNoComdats input.now → ⊥) (HasNoComdats input.now) }
{
    have_comdats(input.objects.as_slice()) || have_comdats(input.libs.as_slice())
}

// The segment in which a local public is.
fn local_seg(public: &Pub) -> Option<u32>
    ensures { (seg : ℕ) → option_any (λ i. i == seg) result ≡ (public.now.local && is_in_seg seg public.now.place) }
{
    if !public.local {
        return None;
    }
    match public.place {
        PubPlace::In { seg, .. } => Some(seg),
        PubPlace::Const { .. } => None,
    }
}

// The segments in which local publics are.
fn local_segs(alloc: Global, publics: &[Pub]) -> Result<BTreeSet<u32>, NoMemory>
    ensures { IfOk result (λ segs. (seg : ℕ) → contains nat_cmp segs seg ≡ list_any (λ p. p.local && is_in_seg seg p.place) publics.now) }
{
    let mut segs = BTreeSet::new(alloc);
    for public in publics {
        if let Some(seg) = local_seg(public) {
            let _new = segs.insert(seg)?;
        }
    }
    Ok(segs)
}

/// The segments of these COMDATs.
pub fn segs_of(alloc: Global, taken: &[Taken<'_>]) -> Result<BTreeSet<u32>, NoMemory>
    ensures { IfOk result (λ segs. (seg : ℕ) → contains nat_cmp segs seg ≡ is_seg_of (map comdat_of taken.now) seg) }
{
    let mut segs = BTreeSet::new(alloc);
    for one in taken {
        let _new = segs.insert(one.own.comdat.seg)?;
    }
    Ok(segs)
}

// Sees one more COMDAT: it goes into the table, or is taken out where its name is there.
fn see<'a>(
    alloc: Global,
    table: &mut Firsts<'a>,
    taken: &mut Vec<Taken<'a>>,
    next: Placed<'a>,
) -> Result<(), NoMemory>
    ensures table { OnOk result (table.new ≡ table_with (value_named next.entry.own.comdat.now.name table.old) table.old next.entry) }
    ensures taken { OnOk result (taken.new.items ≡ taken_with (value_named next.entry.own.comdat.now.name table.old) taken.old.items next.entry) }
{
    let name = next.own.comdat.name.bytes();
    let first: Option<Placed<'a>> = table.get(name).copied();
    match first {
        Some(first) => taken.push(Taken {
            own: next.own,
            first,
        })?,
        None => {
            let _place = table.push(alloc, name, next)?;
        }
    }
    Ok(())
}

/// Takes the COMDATs out of a module whose names those of the modules before it have, or earlier ones of its own. The table
/// has the firsts of the modules before it, and gets those of the module. `place` is how many modules are before it.
pub fn take_out<'a>(
    alloc: Global,
    table: &mut Firsts<'a>,
    place: usize,
    object: &'a ObjModule,
) -> Result<Vec<Taken<'a>>, NoMemory>
    ensures { IfOk result (λ taken. (before : List ObjModule) → length before ≡ place → AreFirsts (owned_in before) table.old
        → IsSeen before object.entry.now table.new taken.items) }
{
    let mut taken = Vec::new(alloc);
    if object.comdats.as_slice().is_empty() {
        return Ok(taken);
    }
    let local = local_segs(alloc, object.pubs.as_slice())?;
    for comdat in object.comdats.as_slice() {
        if !local.contains(&comdat.seg) {
            let own = Owned {
                owner: object,
                comdat,
            };
            see(alloc, table, &mut taken, Placed { place, own })?;
        }
    }
    Ok(taken)
}

/// The place after so many modules and then others.
pub fn place_after(first: usize, index: usize) -> Result<usize, NoMemory>
    ensures { IfOk result (λ place. place ≡ first + index) }
{
    match first.checked_add(index) {
        Some(place) => Ok(place),
        None => Err(NoMemory),
    }
}

// What is taken out of each of these modules, with so many modules before them.
fn lists_after<'a>(
    alloc: Global,
    table: &mut Firsts<'a>,
    first: usize,
    modules: &'a [ObjModule],
) -> Result<Vec<Vec<Taken<'a>>>, NoMemory>
    ensures { IfOk result (λ lists. (before : List ObjModule) → length before ≡ first → AreFirsts (owned_in before) table.old
        → AreSeen before modules.entry.now table.new lists.items) }
{
    let mut lists = Vec::new(alloc);
    for (index, object) in modules.iter().enumerate() {
        let place = place_after(first, index)?;
        lists.push(take_out(alloc, table, place, object)?)?;
    }
    Ok(lists)
}

/// What is taken out of each module of an input.
pub struct TakenOut<'a> {
    pub objects: Vec<Vec<Taken<'a>>>,
    pub libs: Vec<Vec<Taken<'a>>>,
}

// Dropped by a call, as lists are (`Seq`).
impl Drop for TakenOut<'_> {
    fn drop(self) {
        let TakenOut { objects, libs } = self;
        drop(objects);
        drop(libs);
    }
}

/// What is taken out of an input. Each COMDAT is looked up once.
pub fn taken_out<'a>(alloc: Global, input: &'a LinkInput) -> Result<TakenOut<'a>, NoMemory>
    ensures { IfOk result (λ out. IsTakenOut input.entry.now out) }
{
    let mut table = NameTable::new(alloc);
    let first = input.objects.as_slice().len();
    let objects = lists_after(alloc, &mut table, 0, input.objects.as_slice())?;
    let libs = lists_after(alloc, &mut table, first, input.libs.as_slice())?;
    Ok(TakenOut { objects, libs })
}
