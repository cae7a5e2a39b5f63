//! Where the entry points of a library's modules are.

ghost use Rattle.std.specs.Prelude.{◌≡◌, ◌≤◌, ◌<◌, ◌+◌, IfOk, IfSome, length, option_copied};
ghost use Rattle.std.specs.Option.{ForSome};
ghost use Rattle.lx_types.specs.Parts.{entry_of, proc_name_of, ordinal_named};
ghost use Rattle.lx_types.specs.declared.limits.TheConstants.{MAX_MODULES};
ghost use Rattle.lx_model.specs.Library.{module_of, import_of};
ghost use Rattle.lx_model.specs.Entries as spots;
ghost use Rattle.mod_graph.specs.Names.{AreIndexed};
ghost use Rattle.lx_model.specs.Entries.{place_named, followed, entry_or_none, entry_count};

use crate::imports::library_with_name;
use crate::names::{NameIndex, index_at};
use lx_model::{EntryFault, Spot};
use lx_types::{EntryHead, FixTarget, FwdKey, Module, NoMemory};
use std::marker::Model;

/// What a place stands for: a module's number, and an ordinal of it.
fn head_at(mods: &[Module], place: (u32, u32)) -> Option<EntryHead>
    requires { place.0 < length mods.now }
    ensures { result ≡ entry_of (module_of mods.now place.0).entries place.1 }
{
    mods[place.0 as usize].entry(place.1)
}

/// The name that module `m` has at an offset of its import procedures.
fn proc_name(mods: &[Module], m: u32, at: u32) -> Option<&[u8]>
    requires { m < length mods.now }
    ensures { option_copied result ≡ proc_name_of (module_of mods.now m) at }
{
    mods[m as usize].proc_name(at)
}

/// The place of a name in module `m`.
fn name_place(mods: &[Module], names: &[NameIndex], m: u32, name: &[u8]) -> Option<(u32, u32)>
    requires module { m < length mods.now }
    requires names { AreIndexed mods.now names.now }
    ensures place { result ≡ place_named mods.now m name.now }
    ensures within { IfSome result (λ place. place.0 < length mods.now) }
{
    match index_at(names, m).ordinal_of(name) {
        Some(ordinal) => Some((m, ordinal)),
        None => None,
    }
}

/// What number `import` of a module's import modules means.
fn import_with_number(mods: &[Module], m: u32, import: u32) -> Option<u32>
    requires few { length mods.now ≤ MAX_MODULES }
    requires module { m < length mods.now }
    ensures number { result ≡ import_of mods.now m import }
    ensures within { IfSome result (λ other. other < length mods.now) }
{
    match mods[m as usize]
        .imports()
        .get(import.saturating_sub(1) as usize)
    {
        Some(name) => library_with_name(mods, name),
        None => None,
    }
}

/// The place that module `m` means by a key of another one.
fn key_place(
    mods: &[Module],
    names: &[NameIndex],
    m: u32,
    key: FwdKey,
    other: u32,
) -> Option<(u32, u32)>
    requires module { m < length mods.now }
    requires other { other < length mods.now }
    requires names { AreIndexed mods.now names.now }
    ensures place { result ≡ spots.key_place mods.now m key other }
    ensures within { IfSome result (λ place. place.0 < length mods.now) }
{
    match key {
        FwdKey::Ordinal(ordinal) => Some((other, ordinal)),
        FwdKey::NameAt(at) => match proc_name(mods, m, at) {
            Some(name) => name_place(mods, names, other, name),
            None => None,
        },
    }
}

/// The place that a key of number `import` of a module's import modules means.
fn import_place(
    mods: &[Module],
    names: &[NameIndex],
    m: u32,
    import: u32,
    key: FwdKey,
) -> Option<(u32, u32)>
    requires few { length mods.now ≤ MAX_MODULES }
    requires module { m < length mods.now }
    requires names { AreIndexed mods.now names.now }
    ensures place { result ≡ spots.import_place mods.now m import key }
    ensures within { IfSome result (λ place. place.0 < length mods.now) }
{
    match import_with_number(mods, m, import) {
        Some(other) => key_place(mods, names, m, key, other),
        None => None,
    }
}

/// The spot to which at most so many places lead, the first of them given: each forwarder leads to the next.
fn spot_after(
    mods: &[Module],
    names: &[NameIndex],
    places: usize,
    first: (u32, u32),
) -> Result<Spot, EntryFault>
    requires few { length mods.now ≤ MAX_MODULES }
    requires module { first.0 < length mods.now }
    requires names { AreIndexed mods.now names.now }
    ensures { result ≡ followed places mods.now first }
{
    let mut place = first;
    for _ in 0..places {
        match head_at(mods, place) {
            None => return Err(EntryFault::NoEntry),
            Some(EntryHead::At { object, offset }) => {
                return Ok(Spot {
                    module: place.0,
                    object,
                    offset,
                });
            }
            Some(EntryHead::Gate286 { .. }) => return Err(EntryFault::Gate286),
            Some(EntryHead::Forward { import, key }) => {
                match import_place(mods, names, place.0, import, key) {
                    Some(next) => place = next,
                    None => return Err(EntryFault::NoEntry),
                }
            }
        }
    }
    Err(EntryFault::ForwardLoop)
}

/// The spot of a place that a key means, where it means one.
fn spot_or_none(
    mods: &[Module],
    names: &[NameIndex],
    places: usize,
    place: Option<(u32, u32)>,
) -> Result<Spot, EntryFault>
    requires few { length mods.now ≤ MAX_MODULES }
    requires within { ForSome place (λ p. p.0 < length mods.now) }
    requires places { places ≡ entry_count mods.now + 1 }
    requires names { AreIndexed mods.now names.now }
    ensures { result ≡ entry_or_none mods.now place }
{
    match place {
        Some(place) => spot_after(mods, names, places, place),
        None => Err(EntryFault::NoEntry),
    }
}

/// The spot of a target of module `m`'s fixups.
fn target_spot(
    mods: &[Module],
    names: &[NameIndex],
    places: usize,
    m: u32,
    target: &FixTarget,
) -> Result<Spot, EntryFault>
    requires few { length mods.now ≤ MAX_MODULES }
    requires module { m < length mods.now }
    requires places { places ≡ entry_count mods.now + 1 }
    requires names { AreIndexed mods.now names.now }
    ensures { result ≡ spots.target_spot mods.now m target.now }
{
    match *target {
        FixTarget::Internal { object, offset } => Ok(Spot {
            module: m,
            object,
            offset,
        }),
        FixTarget::Ordinal { import, ordinal } => spot_or_none(
            mods,
            names,
            places,
            import_place(mods, names, m, import, FwdKey::Ordinal(ordinal)),
        ),
        FixTarget::Named { import, name_at } => spot_or_none(
            mods,
            names,
            places,
            import_place(mods, names, m, import, FwdKey::NameAt(name_at)),
        ),
        FixTarget::Own { ordinal } => spot_or_none(mods, names, places, Some((m, ordinal))),
    }
}

/// Modules, with what finds their entry points: an index of each module's names, and how many places forwarders
/// can come to.
#[derive(Drop)]
pub struct EntryPoints<'a> {
    mods: &'a [Module],
    names: &'a [NameIndex],
    places: usize,
}

impl<'a> Model for EntryPoints<'a> {
    ghost use Rattle.std.specs.Prelude.{List};
    ghost use Rattle.lx_types.specs.declared.parts.Parts.{Parts};
    ghost use Rattle.mod_graph.specs.Names.{AreFound};

    ghost Value = { List Parts };

    ghost view = { λ e. e.mods.now };

    ghost invariant = { λ e. AreFound e.mods.now e.names.now e.places };
}

impl<'a> EntryPoints<'a> {
    ghost use Rattle.mod_graph.specs.Names.{AreFound};
    ghost use Rattle.lx_model.specs.Entries.{Entry, EntryNamed};

    pub fn of(mods: &'a [Module], names: &'a [NameIndex], places: usize) -> EntryPoints<'a>
        requires { AreFound mods.now names.now places }
        ensures { result ≡ mods.now }
    {
        EntryPoints {
            mods,
            names,
            places,
        }
    }

    /// The modules, at most 64.
    pub fn modules(&self) -> &'a [Module]
        ensures modules { result.now ≡ self.now }
        ensures few { length self.now ≤ MAX_MODULES }
    {
        self.mods
    }

    /// How many modules there are.
    pub fn count(&self) -> u32
        ensures { result ≡ length self.now }
    {
        self.mods.len() as u32
    }

    /// The spot of an ordinal of module `m`.
    pub fn by_ordinal(&self, m: u32, ordinal: u32) -> Result<Spot, EntryFault>
        requires { m < length self.now }
        ensures { result ≡ Entry self.now (m, ordinal) }
    {
        spot_or_none(self.mods, self.names, self.places, Some((m, ordinal)))
    }

    /// The spot of a name of module `m`.
    pub fn by_name(&self, m: u32, name: &[u8]) -> Result<Spot, EntryFault>
        requires { m < length self.now }
        ensures { result ≡ EntryNamed self.now m name.now }
    {
        let place = name_place(self.mods, self.names, m, name);
        spot_or_none(self.mods, self.names, self.places, place)
    }

    /// The spot of a target of module `m`'s fixups.
    pub fn of_target(&self, m: u32, target: &FixTarget) -> Result<Spot, EntryFault>
        requires { m < length self.now }
        ensures { result ≡ spots.target_spot self.now m target.now }
    {
        target_spot(self.mods, self.names, self.places, m, target)
    }
}

/// How many entries the modules have together, and one: so many places a walk along forwarders may come to before
/// it comes to one of them again. More than a number holds is want of memory.
pub fn place_count(mods: &[Module]) -> Result<usize, NoMemory>
    ensures { IfOk result (λ places. places ≡ entry_count mods.now + 1) }
{
    let mut places: usize = 1;
    for m in mods {
        places = places.checked_add(m.entries().len()).ok_or(NoMemory)?;
    }
    Ok(places)
}
