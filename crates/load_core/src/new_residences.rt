//! Residences that begin.

ghost use Rattle.std.specs.Prelude.{◌≡◌, ◌<◌, ◌≤◌, ◌+◌, ◌-◌, ◌++◌, true, None, Some, All, is_some, length, map, find, position, drop, IfOk, OnOk, OnErr, vec_len, vec_capacity};
ghost use Rattle.std.specs.List.{AllByRecursion};
ghost use Rattle.std.specs.Arc.{arc_value};
ghost use Rattle.load_model.specs.State.{Eager, pids, is_among};
ghost use Rattle.load_model.specs.declared.commands.Ask.TheVariants as asks;
ghost use Rattle.mod_refs.specs.AllCounts.{AreCountsOfAll, AreKept, counts_at};
ghost use Rattle.mod_refs.specs.Changes.{IsIdleFor, IsFullFor, with_entered};
ghost use Rattle.residence_table.specs.Residences.{is_of_module};
ghost use Rattle.load_core.specs.BoardState.{MayAsk, Adds};
ghost use Rattle.load_core.specs.Told.{IsLoaded};
ghost use Rattle.load_core.specs.Enters as begins;
ghost use Rattle.load_core.specs.Enters.{IsArrival, IsNew, AreNew, failing_of};

use crate::all_bases::Beginning;
use crate::answers::Loaded;
use crate::arrivals::{Arrival, Entrance};
use crate::board::Board;
use crate::residence_parts::ResidenceParts;
use load_model::{Deed, Entry, Fresh};
use lx_types::NoMemory;
use mod_graph::Library;
use mod_refs::Refs;
use page_fix::Rights;
use page_frames::{Frames, Keeper, KeptResidence, Residence};
use residence_table::{ResidenceRow, ResidenceTable};
use std::alloc::Global;
use std::sync::Arc;
use write_overlay::Layers;

/// A hold on the frames of the residence of a module, which a start or a load attaches, and where that residence stands once
/// those that begin stand after those that stood.
#[derive(Drop)]
struct Attached {
    module: u32,
    place: usize,
    frames: Arc<Frames>,
}

// The first place of a residence of a module.
fn place_in(rows: &[ResidenceRow<ResidenceParts>], k: u32) -> Option<usize>
    ensures { result ≡ position (is_of_module k) rows.now }
{
    rows.iter().position(|row| row.module() == k)
}

// A hold on the frames of a residence that stands at a place, or begins and will stand there.
fn attached_at(
    row: &ResidenceRow<ResidenceParts>,
    k: u32,
    place: usize,
) -> Result<Attached, NoMemory>
    ensures { IfOk result (λ a. (a.«module» ≡ k) × (a.place ≡ place) × (arc_value a.frames ≡ row.now.1.shared.frames)) }
{
    Ok(Attached {
        module: k,
        place,
        frames: row.beside().shared.hold()?,
    })
}

// A hold on the frames of the residence of a module that begins.
fn new_attached(
    table: &ResidenceTable<ResidenceParts>,
    new_residences: &[ResidenceRow<ResidenceParts>],
    k: u32,
) -> Result<Attached, NoMemory>
    requires stands { position (is_of_module k) table.now ≡ None }
    requires found { is_some (find (is_of_module k) (table.now ++ new_residences.now)) ≡ true }
    ensures { IfOk result (λ a. (a.«module» ≡ k) × begins.IsAttached (table.now ++ new_residences.now) a) }
{
    match place_in(new_residences, k) {
        Some(place) => attached_at(&new_residences[place], k, table.rows().len() + place),
        None => unreachable!(),
    }
}

// A hold on the frames of the residence of a module, which stands or begins.
fn attached_with(
    table: &ResidenceTable<ResidenceParts>,
    new_residences: &[ResidenceRow<ResidenceParts>],
    k: u32,
) -> Result<Attached, NoMemory>
    requires { is_some (find (is_of_module k) (table.now ++ new_residences.now)) ≡ true }
    ensures { IfOk result (λ a. (a.«module» ≡ k) × begins.IsAttached (table.now ++ new_residences.now) a) }
{
    match place_in(table.rows(), k) {
        Some(place) => attached_at(table.at(place), k, place),
        None => new_attached(table, new_residences, k),
    }
}

// The frames of the residences of modules, in their order.
fn all_attached(
    alloc: Global,
    table: &ResidenceTable<ResidenceParts>,
    new_residences: &[ResidenceRow<ResidenceParts>],
    joined: &[u32],
) -> Result<Vec<Attached>, NoMemory>
    requires { All (λ k. is_some (find (is_of_module k) (table.now ++ new_residences.now)) ≡ true) joined.now }
    ensures modules { IfOk result (λ all. map (λ a. a.«module») all.items ≡ joined.now) }
    ensures frames { IfOk result (λ all. AllByRecursion (begins.IsAttached (table.now ++ new_residences.now)) all.items) }
{
    let mut all = Vec::with_capacity(alloc, joined.len())?;
    for k in joined {
        all.push(attached_with(table, new_residences, *k)?)?;
    }
    Ok(all)
}

// Keeps the residences from a place on, which begin.
fn keep_from(keeper: &mut Keeper, table: &mut ResidenceTable<ResidenceParts>, first: usize)
    requires first { first ≤ length table.old }
    requires numbered { begins.AreNumbered keeper.old.given (drop first table.old) }
    ensures table { table.new ≡ begins.kept_from keeper.old.name first table.old }
    ensures keeper { keeper.new ≡ record keeper.old { given = keeper.old.given + (length table.old - first) } }
{
    for place in first..table.rows().len() {
        keeper.keep(&mut table.beside_mut(place).shared);
    }
}

// Hands out the residence of a module.
fn handed_out(table: &ResidenceTable<ResidenceParts>, attached: Attached) -> Residence
    requires { begins.IsAttached table.now attached }
    ensures { Some result ≡ begins.shared_of table.now attached.«module» }
{
    let row = table.at(attached.place);
    row.beside().shared.hand_out(attached.frames)
}

// Hands out the residences of modules, in their order, into a list that has room for them.
fn hand_out(
    table: &ResidenceTable<ResidenceParts>,
    attached: Vec<Attached>,
    into: &mut Vec<Residence>,
)
    requires attached { AllByRecursion (begins.IsAttached table.now) attached.items }
    requires empty { vec_len into.old ≡ 0 }
    requires room { length attached.items ≤ vec_capacity into.old }
    ensures { map Some into.new.items ≡ map (λ a. begins.shared_of table.now a.«module») attached.items }
{
    for one in attached {
        into.push_reserved(handed_out(table, one));
    }
}

// Attaches what a start or a load attaches, where the process may hold the module once more.
fn attach(refs: &mut Refs, lib: &Library, at: Entrance)
    requires kept { AreKept lib.now refs.old }
    requires process { is_among pids at.pid ≡ true }
    requires module { at.«module» < length lib.now }
    requires idle { IsIdleFor at.how (counts_at refs.old at.pid) }
    requires few { IsFullFor at.how at.«module» (counts_at refs.old at.pid) → ⊥ }
    ensures { (e : Eager) → AreCountsOfAll lib.now e refs.old → AreCountsOfAll lib.now (with_entered lib.now e at.pid at.how at.«module») refs.new }
{
    match refs.attach(lib, at.pid, at.module, at.how) {
        Ok(()) => {}
        Err(_) => unreachable!(),
    }
}

impl Board {
    // A residence that begins with others.
    fn begun(
        &self,
        with: &Beginning<'_>,
        one: &Fresh,
    ) -> Result<ResidenceRow<ResidenceParts>, NoMemory>
        requires module { one.now.«module» < length self.now.library }
        requires bases { begins.AreBasesAfter self.now with.now.fresh.now with.now.bases.items }
        ensures { IfOk result (IsNew self.now with.now.fresh.now one.now) }
    {
        let bases = self.bases_after(with, one.module)?;
        let lib = Arc::try_clone(&self.lib)?;
        let frames = Frames::make(self.alloc, one.serial, lib, one.module, bases)?;
        let rights = Rights::make(self.alloc, one.serial, &self.lib, one.module)?;
        let beside = ResidenceParts {
            rights,
            shared: KeptResidence::new(Arc::new(self.alloc, frames)?),
            layers: Layers::new(self.alloc),
        };
        ResidenceRow::begun(self.alloc, one, beside)
    }

    // The residences that begin.
    fn new_residences(&self, fresh: &[Fresh]) -> Result<Vec<ResidenceRow<ResidenceParts>>, NoMemory>
        requires { All (λ f. f.«module» < length self.now.library) fresh.now }
        ensures { IfOk result (λ rows. AreNew self.now fresh.now fresh.now rows.items) }
    {
        let mut rows = Vec::with_capacity(self.alloc, fresh.len())?;
        if fresh.is_empty() {
            return Ok(rows);
        }
        let with = self.beginning(fresh)?;
        for one in fresh {
            rows.push(self.begun(&with, one)?)?;
        }
        Ok(rows)
    }

    // The module is loaded.
    pub(crate) fn enter(&mut self, at: Entrance, arrival: Arrival) -> Result<Loaded, NoMemory>
        requires process { is_among pids at.pid ≡ true }
        requires may { MayAsk self.old at.pid (asks.Enter at.how at.«module») }
        requires arrival { IsArrival self.old at arrival }
        requires fine { failing_of self.old at arrival ≡ None }
        ensures entry { OnOk result (Adds self.old self.new at.pid (asks.Enter at.how at.«module»)) }
        ensures answer { IfOk result (IsLoaded self.old self.new at.pid at.how at.«module») }
        ensures err { OnErr result (self.new ≡ self.old) }
    {
        lx_model::order_is_reach();
        load_model::residences_stay();
        mod_refs::legal_counts_are_kept();
        let new_residences = self.new_residences(arrival.fresh.as_slice())?;
        let attached = all_attached(self.alloc, &self.table, &new_residences, &arrival.joined)?;
        let mut joined = Vec::with_capacity(self.alloc, attached.len())?;
        self.history.reserve(1)?;
        let first = self.table.rows().len();
        self.table.begin(new_residences)?;
        keep_from(&mut self.keeper, &mut self.table, first);
        hand_out(&self.table, attached, &mut joined);
        attach(&mut self.refs, &self.lib, at);
        self.history.push_reserved(Entry {
            pid: at.pid,
            deed: Deed::Enter {
                how: at.how,
                module: at.module,
                fresh: arrival.fresh,
                calls: arrival.calls,
            },
        });
        Ok(Loaded::Done { joined })
    }
}
