//! What stands after a history: a board, with what is found there by number.

ghost use Rattle.std.specs.Prelude.{◌≡◌, ◌<◌, ◌≤◌, ◌∷◌, ◌++◌, [], List, Some, false, true, IfOk, IfSome, OnOk, length, option_map};
ghost use Rattle.std.specs.Arc.{arc_value};
ghost use Rattle.lx_types.specs.Object as objects;
ghost use Rattle.load_model.specs.declared.deeds.Entry.{Entry as Done};
ghost use Rattle.load_model.specs.Modules.{object_at};
ghost use Rattle.load_model.specs.State.{pids, is_among, attached_residence};
ghost use Rattle.load_model.specs.Refusals.{residence_named};
ghost use Rattle.load_model.specs.Asks as asks;
ghost use Rattle.load_core.specs.BoardState.{BoardState, state_of};
ghost use Rattle.check_core.specs.FaultedHistories.{AreFaultsOf};
ghost use Rattle.check_play.specs.Standing.{IsStanding, StoodBefore, attached_of, are_fixed_in};

use check_core::FaultedPages;
use load_core::Board;
use load_model::{Place, histories_grow, residents_are_reached};
use lx_types::{Class, Name, NoMemory, PageId};
use mod_graph::Library;
use process_view::span_of;
use standing_serials::StandingSerials;
use std::alloc::Global;
use std::sync::Arc;

/// A board, with the serial numbers of the residences that stand, and with the pages that had their fault.
#[derive(Drop)]
pub struct Standing {
    pub board: Board,
    pub serials: StandingSerials,
    pub faulted: FaultedPages,
}

/// A residence that a process reaches: its serial number, and its module.
#[derive(Clone, Copy)]
pub struct AttachedResidence {
    pub serial: u64,
    pub module: u32,
}

// Whether the pages of an object are each process's own.
#[tactic(auto, unfolding(load_model::specs::Modules::object_at))]
fn is_own(lib: &Library, m: u32, object: u32) -> bool
    requires { m < length lib.now }
    ensures { result ≡ asks.is_own (objects.class_of (object_at lib.now m object)) }
{
    match lib
        .module(m)
        .objects()
        .get((object as usize).saturating_sub(1))
    {
        Some(head) => matches!(head.class(), Class::Private),
        None => false,
    }
}

impl Standing {
    /// What stands before all entries, where the initialisations of these pairs of a process and a module fail.
    pub fn new(
        alloc: Global,
        lib: &Arc<Library>,
        failing: &[(u32, u32)],
    ) -> Result<Standing, NoMemory>
        ensures board { IfOk result (λ s. s.board ≡ record { library = arc_value lib.now; failing = failing.now; history = []; keeper = s.board.keeper }) }
        ensures standing { IfOk result IsStanding }
    {
        let failing = Vec::from_slice(alloc, failing)?;
        Ok(Standing {
            serials: StandingSerials::new(alloc, lib.len())?,
            faulted: FaultedPages::new(alloc),
            board: Board::make_with(alloc, Arc::try_clone(lib)?, failing)?,
        })
    }

    // The residence of a module, where a process reaches it.
    fn reached(&self, pid: u32, m: u32) -> Option<AttachedResidence>
        requires process { is_among pids pid ≡ true }
        requires module { m < length self.now.board.library }
        requires standing { IsStanding self.now }
        ensures found { result ≡ option_map attached_of (attached_residence self.now.board.library (state_of self.now.board) pid m) }
        ensures within { IfSome result (λ r. r.«module» < length self.now.board.library) }
    {
        residents_are_reached();
        self.board.history();
        if !self.board.reaches(pid, m) {
            return None;
        }
        Some(AttachedResidence {
            serial: self.serials.last(m),
            module: m,
        })
    }

    /// Whether a process reaches the residence of a serial number, and that is one of module `m`.
    pub fn is_attached(&self, pid: u32, serial: u64, m: u32) -> bool
        requires process { is_among pids pid ≡ true }
        requires module { m < length self.now.board.library }
        requires standing { IsStanding self.now }
        ensures { result ≡ asks.is_attached self.now.board.library (state_of self.now.board) pid serial m }
    {
        match self.reached(pid, m) {
            Some(residence) => residence.serial == serial,
            None => false,
        }
    }

    /// The residence of the module that a name means, where a process reaches it.
    #[tactic(auto, unfolding(load_model::specs::Refusals::residence_named, load_model::specs::Modules::number_of))]
    pub fn named(&self, pid: u32, name: &Name) -> Option<AttachedResidence>
        requires process { is_among pids pid ≡ true }
        requires standing { IsStanding self.now }
        ensures found { result ≡ option_map attached_of (residence_named self.now.board.library (state_of self.now.board) pid name.now) }
        ensures within { IfSome result (λ r. r.«module» < length self.now.board.library) }
    {
        match self.board.library().find(name) {
            Some(m) => self.reached(pid, m),
            None => None,
        }
    }

    /// Whether each page of a place in a residence is a private one, or had its fault.
    pub fn are_fixed(&self, residence: AttachedResidence, at: &Place) -> bool
        requires module { residence.«module» < length self.now.board.library }
        requires standing { IsStanding self.now }
        ensures { result ≡ are_fixed_in self.now.board.library self.now.board.history at.now residence }
    {
        if is_own(self.board.library(), residence.module, at.object) {
            return true;
        }
        let span = span_of(at.offset, at.len);
        for page in span.first..span.end {
            let p = PageId {
                object: at.object,
                page,
            };
            if !self.faulted.has(residence.serial, p) {
                return false;
            }
        }
        true
    }

    /// Goes on with the entry that the board has now.
    pub fn follow(&mut self) -> Result<(), NoMemory>
        ensures board { self.new.board ≡ self.old.board }
        ensures standing { OnOk result ((h : List Done) (x : Done) → self.old.board.history ≡ h ++ x ∷ [] → StoodBefore self.old h → IsStanding self.new) }
    {
        histories_grow();
        if let Some(entry) = self.board.history().last() {
            self.serials.follow(entry);
            self.faulted.follow(entry)?;
        }
        Ok(())
    }
}
