//! Where the residences of a load are to stand.

ghost use Rattle.std.specs.Prelude.{◌≡◌, ◌+◌, ◌<◌, ◌≤◌, ◌^◌, ◌++◌, ◌∷◌, [], All, IfOk, OnOk, Ok, Err, length, map, zip};
ghost use Rattle.lx_types.specs.Answers.{Answers};
ghost use Rattle.base_pick.specs.declared.occupied.AddressRange.{AddressRange};
ghost use Rattle.base_pick.specs.Places.{shared_arena};
ghost use Rattle.load_model.specs.Modules.{bases_for};
ghost use Rattle.load_model.specs.State.{Eager};
ghost use Rattle.load_model.specs.Entering.{placed_from, range_of, ranges_of, resident_ranges};
ghost use Rattle.load_model.specs.ResidenceBases.{StandIn, Stands};
ghost use Rattle.residence_table.specs.Residences.{residences, unwritten_residences};
ghost use Rattle.residence_table.specs.Placing.{AreResidencesOf, no_room_of, state_with};

use crate::table::ResidenceTable;
use base_pick::{ArenaFull, Occupied, pick};
use load_model::{Fresh, Newcomers};
use lx_types::{Fail, NoMemory, Numbers, ObjHead, Seq};
use mod_graph::Library;
use std::alloc::Global;

/// A module of a load has an object without a place in its arena.
#[derive(Clone, Copy, Drop)]
pub struct NoRoom {
    pub of: u32,
    pub object: ArenaFull,
}

/// Takes the addresses that a library's objects take at these bases.
fn take_objects(occupied: &mut Occupied, objects: &[ObjHead], bases: &[u32]) -> Result<(), NoMemory>
    requires { StandIn shared_arena objects.now bases.now }
    ensures { OnOk result (occupied.new ≡ occupied.old ++ map range_of (zip objects.now bases.now)) }
{
    for (place, object) in objects.iter().enumerate() {
        occupied.add(bases[place], object.size)?;
    }
    Ok(())
}

/// Takes the addresses that module `m`'s objects take at these bases, where it is a library.
fn take(occupied: &mut Occupied, lib: &Library, m: u32, bases: &[u32]) -> Result<(), NoMemory>
    requires module { m < length lib.now }
    requires stands { Stands lib.now m bases.now }
    ensures { OnOk result (occupied.new ≡ occupied.old ++ ranges_of lib.now m bases.now) }
{
    let module = lib.module(m);
    if module.is_library() {
        take_objects(occupied, module.objects(), bases)?;
    }
    Ok(())
}

/// Finds the bases of module `m`'s objects beside what is occupied.
fn pick_for(
    alloc: Global,
    occupied: &Occupied,
    lib: &Library,
    m: u32,
) -> Result<Vec<u32>, Fail<NoRoom>>
    requires { m < length lib.now }
    ensures { Answers result
        (λ bases. bases_for lib.now occupied.now m ≡ Ok bases.items)
        (λ none. (none.of ≡ m) × (bases_for lib.now occupied.now m ≡ Err none.object)) }
{
    match pick(alloc, occupied, lib.module(m)) {
        Ok(bases) => Ok(bases),
        Err(Fail::Said(object)) => Err(Fail::Said(NoRoom { of: m, object })),
        Err(Fail::NoMemory) => Err(Fail::NoMemory),
    }
}

/// Finds the bases of module `m`'s objects beside what is occupied, and takes their addresses.
fn place_one(
    alloc: Global,
    occupied: &mut Occupied,
    lib: &Library,
    m: u32,
) -> Result<Numbers, Fail<NoRoom>>
    requires { m < length lib.now }
    ensures { Answers result
        (λ bases. (bases_for lib.now occupied.old m ≡ Ok bases) × (occupied.new ≡ occupied.old ++ ranges_of lib.now m bases))
        (λ none. (none.of ≡ m) × (bases_for lib.now occupied.old m ≡ Err none.object)) }
{
    let bases = pick_for(alloc, occupied, lib, m)?;
    take(occupied, lib, m, &bases)?;
    Ok(Seq::from_vec(bases))
}

/// Places modules one after the other, by serial numbers from the one after `serials` on.
fn place_all(
    alloc: Global,
    mut occupied: Occupied,
    lib: &Library,
    serials: u64,
    modules: &[u32],
) -> Result<Newcomers, Fail<NoRoom>>
    requires within { All (λ m. m < length lib.now) modules.now }
    requires serials { serials + length modules.now < 2 ^ 64 }
    ensures answer { Answers result
        (λ fresh. placed_from lib.now serials occupied modules.now ≡ Ok fresh)
        (λ none. placed_from lib.now serials occupied modules.now ≡ Err (no_room_of none)) }
    ensures modules { IfOk result (λ fresh. map (λ f. f.«module») fresh ≡ modules.now) }
{
    let mut fresh = Vec::with_capacity(alloc, modules.len())?;
    let mut serial = serials;
    for m in modules {
        let bases = place_one(alloc, &mut occupied, lib, *m)?;
        serial += 1;
        fresh.push(Fresh {
            serial,
            module: *m,
            bases,
        })?;
    }
    Ok(Seq::from_vec(fresh))
}

impl<T: Drop> ResidenceTable<T> {
    /// The addresses that resident libraries take.
    pub fn occupied(&self, alloc: Global, lib: &Library) -> Result<Occupied, NoMemory>
        requires { AreResidencesOf lib.now (residences self.now) }
        ensures { IfOk result (λ occupied. (e : Eager) → unwritten_residences e ≡ residences self.now → occupied ≡ resident_ranges lib.now e) }
    {
        let mut occupied = Occupied::none(alloc);
        for row in self.rows() {
            take(&mut occupied, lib, row.module(), row.bases().as_slice())?;
        }
        Ok(occupied)
    }

    /// The residences of new modules, in their order: each takes the next serial number, after the `serials`
    /// that were given, and its objects take their linked bases where these are free, otherwise the least
    /// free places. The first object without a place is refused. Nothing changes.
    pub fn place(
        &self,
        alloc: Global,
        lib: &Library,
        serials: u64,
        newcomers: &[u32],
    ) -> Result<Newcomers, Fail<NoRoom>>
        requires stand { AreResidencesOf lib.now (residences self.now) }
        requires within { All (λ m. m < length lib.now) newcomers.now }
        requires serials { serials + length newcomers.now < 2 ^ 64 }
        ensures answer { (e : Eager) → unwritten_residences e ≡ residences self.now → Answers result
            (λ fresh. placed_from lib.now serials (resident_ranges lib.now e) newcomers.now ≡ Ok fresh)
            (λ none. placed_from lib.now serials (resident_ranges lib.now e) newcomers.now ≡ Err (no_room_of none)) }
        ensures modules { IfOk result (λ fresh. map (λ f. f.«module») fresh ≡ newcomers.now) }
    {
        let occupied = self.occupied(alloc, lib)?;
        place_all(alloc, occupied, lib, serials, newcomers)
    }
}
