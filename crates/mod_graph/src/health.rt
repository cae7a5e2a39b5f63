//! Whether a module can be loaded.

ghost use Rattle.std.specs.Prelude.{◌≡◌, ◌≤◌, ◌<◌, ◌+◌, ◌^◌, IfOk, IfSome, Some, None, [], length, map, All, is_none, position, slice_index_or, if◌then◌else◌};
ghost use Rattle.std.specs.List.{range_with_len};
ghost use Rattle.lx_types.specs.declared.limits.TheConstants.{MAX_MODULES};
ghost use Rattle.lx_model.specs.Library.{module_of, library_named};
ghost use Rattle.lx_model.specs.Reach.{Order, HealthOf};
ghost use Rattle.lx_model.specs.Reach as faults;
ghost use Rattle.lx_model.specs.Reading.{◌then◌};
ghost use Rattle.mod_graph.specs.Visiting.{AreWithin};
ghost use Rattle.mod_graph.specs.Faults as firsts;
ghost use Rattle.mod_graph.specs.Faults.{faults_of, listed};

use crate::entries::EntryPoints;
use crate::imports::library_with_name;
use lx_model::{EntryFault, Health, Spot};
use lx_types::{FixTarget, Module, Name, NoMemory, Numbers};
use std::alloc::Global;

/// What keeps a module out by itself: each kind of `Health`, where the module has it.
#[derive(Clone, Copy)]
pub struct Faults {
    pub no_module: Option<Health>,
    pub no_entry: Option<Health>,
    pub forward_loop: Option<Health>,
    pub gate286: Option<Health>,
}

/// A kind of `Health` that keeps a module out.
#[derive(Clone, Copy)]
pub enum Kind {
    NoModule,
    NoEntry,
    ForwardLoop,
    Gate286,
}

impl Faults {
    ghost use Rattle.mod_graph.specs.Faults.{of_kind};

    /// The fault of a kind.
    fn of_kind(&self, kind: Kind) -> Option<Health>
        ensures { result ≡ of_kind kind self.now }
    {
        match kind {
            Kind::NoModule => self.no_module,
            Kind::NoEntry => self.no_entry,
            Kind::ForwardLoop => self.forward_loop,
            Kind::Gate286 => self.gate286,
        }
    }
}

/// In which faults some look-ups of entry points ended.
#[derive(Clone, Copy)]
pub struct Met {
    pub no_entry: bool,
    pub forward_loop: bool,
    pub gate286: bool,
}

impl Met {
    ghost use Rattle.mod_graph.specs.Faults.{nothing_met, met_with};

    /// No look-up.
    fn nothing() -> Met
        ensures { result ≡ nothing_met }
    {
        Met {
            no_entry: false,
            forward_loop: false,
            gate286: false,
        }
    }

    /// One look-up more.
    fn with(self, found: Result<Spot, EntryFault>) -> Met
        ensures { result ≡ met_with found self }
    {
        match found {
            Ok(_) => self,
            Err(EntryFault::NoEntry) => Met {
                no_entry: true,
                ..self
            },
            Err(EntryFault::ForwardLoop) => Met {
                forward_loop: true,
                ..self
            },
            Err(EntryFault::Gate286) => Met {
                gate286: true,
                ..self
            },
        }
    }
}

/// In which faults the look-ups of these targets of module `m`'s fixups end.
fn met_by(points: &EntryPoints, m: u32, targets: &[FixTarget]) -> Met
    requires { m < length points.now }
    ensures { result ≡ firsts.met_by points.now m targets.now }
{
    let mut met = Met::nothing();
    for target in targets {
        met = met.with(points.of_target(m, target));
    }
    met
}

/// The targets of module `m` outside its own objects.
fn refs_of(mods: &[Module], m: u32) -> &[FixTarget]
    requires { m < length mods.now }
    ensures { result.now ≡ (module_of mods.now m).refs }
{
    mods[m as usize].refs()
}

/// The names of module `m`'s import modules.
fn import_names(mods: &[Module], m: u32) -> &[Name]
    requires { m < length mods.now }
    ensures { result.now ≡ (module_of mods.now m).imports }
{
    mods[m as usize].imports()
}

/// Whether a name means no library.
fn is_lost(mods: &[Module], name: &Name) -> bool
    requires { length mods.now ≤ MAX_MODULES }
    ensures { result ≡ is_none (library_named mods.now name.now) }
{
    library_with_name(mods, name).is_none()
}

/// The place of the first of these names that means no library.
fn lost_place(mods: &[Module], names: &[Name]) -> Option<usize>
    requires { length mods.now ≤ MAX_MODULES }
    ensures place { result ≡ position (λ name. is_none (library_named mods.now name)) names.now }
    ensures within { IfSome result (λ k. k < length names.now) }
{
    names.iter().position(|name| is_lost(mods, name))
}

/// The first name of module `m`'s import table that means no library. A number past 32 bits is want of memory.
fn lost_import(mods: &[Module], m: u32) -> Result<Option<Health>, NoMemory>
    requires few { length mods.now ≤ MAX_MODULES }
    requires module { m < length mods.now }
    ensures { IfOk result (λ lost. lost ≡ faults.lost_import mods.now m) }
{
    match lost_place(mods, import_names(mods, m)) {
        Some(place) => match u32::try_from(place + 1) {
            Ok(name_no) => Ok(Some(Health::NoModule { by: m, name_no })),
            Err(_) => Err(NoMemory),
        },
        None => Ok(None),
    }
}

/// Health `m` of these.
pub fn health_at(healths: &[Health], m: u32) -> Health
    requires { m < length healths.now }
    ensures { result ≡ slice_index_or healths.now m Health.Fit }
{
    healths[m as usize]
}

/// List `m` of these.
pub fn list_at(lists: &[Numbers], m: u32) -> &[u32]
    requires { m < length lists.now }
    ensures { result.now ≡ slice_index_or lists.now m [] }
{
    lists[m as usize].as_slice()
}

/// What module `m` has where a test holds of it.
fn where_so(holds: bool, fault: Health) -> Option<Health>
    ensures { result ≡ (if holds then Some fault else None) }
{
    if holds { Some(fault) } else { None }
}

/// The faults of module `m`. It looks up each of its targets once.
fn faults_of_module(points: &EntryPoints, m: u32) -> Result<Faults, NoMemory>
    requires { m < length points.now }
    ensures { IfOk result (λ found. found ≡ faults_of points.now m) }
{
    let mods = points.modules();
    let met = met_by(points, m, refs_of(mods, m));
    Ok(Faults {
        no_module: lost_import(mods, m)?,
        no_entry: where_so(met.no_entry, Health::NoEntry { by: m }),
        forward_loop: where_so(met.forward_loop, Health::ForwardLoop { by: m }),
        gate286: where_so(met.gate286, Health::Gate286 { by: m }),
    })
}

/// The faults of each module.
fn faults_of_all(alloc: Global, points: &EntryPoints) -> Result<Vec<Faults>, NoMemory>
    ensures faults { IfOk result (λ found. found.items ≡ map (faults_of points.now) (range_with_len 0 (length points.now))) }
    ensures length { IfOk result (λ found. length found.items ≡ length points.now) }
{
    let mut faults = Vec::new(alloc);
    for m in 0..points.count() {
        faults.push(faults_of_module(points, m)?)?;
    }
    Ok(faults)
}

/// The first fault of a kind that the members of an order have.
fn first_of_kind(faults: &[Faults], order: &[u32], kind: Kind) -> Option<Health>
    requires { All (λ m. m < length faults.now) order.now }
    ensures { result ≡ firsts.first_of_kind kind faults.now order.now }
{
    for m in order {
        if let Some(fault) = faults[*m as usize].of_kind(kind) {
            return Some(fault);
        }
    }
    None
}

/// The first of two faults.
fn or_other(fault: Option<Health>, other: Option<Health>) -> Option<Health>
    ensures { result ≡ (fault then other) }
{
    match fault {
        Some(fault) => Some(fault),
        None => other,
    }
}

/// The first kind of fault that a member of an order has, with the first such member.
fn health_among(faults: &[Faults], order: &[u32]) -> Health
    requires { All (λ m. m < length faults.now) order.now }
    ensures { result ≡ firsts.health_among faults.now order.now }
{
    let gates = first_of_kind(faults, order, Kind::Gate286);
    let loops = or_other(first_of_kind(faults, order, Kind::ForwardLoop), gates);
    let entries = or_other(first_of_kind(faults, order, Kind::NoEntry), loops);
    match or_other(first_of_kind(faults, order, Kind::NoModule), entries) {
        Some(fault) => fault,
        None => Health::Fit,
    }
}

/// The health of each module, from the orders.
pub fn healths_of(
    alloc: Global,
    points: &EntryPoints,
    orders: &[Numbers],
) -> Result<Vec<Health>, NoMemory>
    requires orders { orders.now ≡ map (Order points.now) (range_with_len 0 (length points.now)) }
    requires orders_length { length orders.now ≡ length points.now }
    requires orders_within { AreWithin (length points.now) orders.now }
    ensures { IfOk result (λ healths. healths.items ≡ map (HealthOf points.now) (range_with_len 0 (length points.now))) }
{
    let faults = faults_of_all(alloc, points)?;
    let mut healths = Vec::new(alloc);
    for m in 0..points.count() {
        healths.push(health_among(&faults, list_at(orders, m)))?;
    }
    Ok(healths)
}
