//! Faults, which a process makes for the touch that it does next.

ghost use Rattle.std.specs.Prelude.{◌≡◌, ◌<◌, ◌∷◌, ℕ, List, Option, IfOk, OnOk, option_map, true, false, length, slice_index_or};
ghost use Rattle.std.specs.Option.{option_copied};
ghost use Rattle.load_model.specs.declared.commands.Command.{Command as Asked};
ghost use Rattle.load_model.specs.declared.commands.Ask.TheVariants as asks;
ghost use Rattle.load_model.specs.declared.deeds.Deed.TheVariants as deeds;
ghost use Rattle.load_model.specs.declared.deeds.Entry.{Entry};
ghost use Rattle.load_model.specs.State.{pids, is_among, serial_of};
ghost use Rattle.load_model.specs.Refusals.{residence_named};
ghost use Rattle.load_model.specs.Asks.{may_ask};
ghost use Rattle.load_model.specs.Step as rules;
ghost use Rattle.load_model.specs.Histories.{has_fault};
ghost use Rattle.load_core.specs.BoardState.{state_of};
ghost use Rattle.page_frames.specs.Residences.{ResidenceFor};
ghost use Rattle.process_view.specs.Answering.{IsReachedNamed};
ghost use Rattle.process_view.specs.Deeds.{CanMap, IsSharedPage};
ghost use Rattle.session_model.specs.Merging.{Item, entry};
ghost use Rattle.check_model.specs.Checks.{Judge};
ghost use Rattle.check_core.specs.ToldItems.{item_of};
ghost use Rattle.check_core.specs.PlayedItems.{CanPlay, next_after};
ghost use Rattle.check_play.specs.Standing.{IsStanding, StandsShown};
ghost use Rattle.check_play.specs.Taking.{IsFaultTaken};
ghost use Rattle.check_play.specs.FaultTouches as fault_touches;
ghost use Rattle.check_play.specs.FaultTouches.{HasObject, IsFaultMade};
ghost use Rattle.check_play.specs.Playing.{StandsAlone, IsPlayedAlone};

use crate::asking::may_fault;
use crate::hands::{Hands, ReachedPage};
use crate::standing::{AttachedResidence, Standing};
use check_core::ToldItem;
use check_model::CheckKind;
use load_core::{Board, Claim};
use load_model::{Command, Place, Reply, histories_grow, residences_stand};
use lx_types::{Name, NoMemory, PageId};
use page_fix::Steps;
use play_laws::mapped_pages_move;
use process_view::{View, pages_stand, span_of};
use session_model::Line;
use std::alloc::Global;
use std::sync::ledger::Ledger;
use std::sync::{Arc, Wait};

/// A page of a residence.
#[derive(Clone, Copy)]
pub struct ResidencePage {
    pub residence: AttachedResidence,
    pub page: PageId,
}

// Whether a place covers a page of its object.
fn covers(place: &Place, p: PageId) -> bool
    ensures { result ≡ fault_touches.covers place.now p }
{
    if place.object != p.object {
        return false;
    }
    let span = span_of(place.offset, place.len);
    span.first <= p.page && p.page < span.end
}

// The serial number of the residence in which a place is that a process reaches; 0, where it reaches none.
fn serial_named(standing: &Standing, pid: u32, place: &Place) -> u64
    requires process { is_among pids pid ≡ true }
    requires standing { IsStanding standing.now }
    ensures { result ≡ rules.serial_named standing.now.board.library (state_of standing.now.board) pid place.now }
{
    match standing.named(pid, &place.module) {
        Some(residence) => residence.serial,
        None => 0,
    }
}

// The place of a line that is the accepted touch of a page of a residence.
fn touched_in<'a>(
    standing: &Standing,
    pid: u32,
    at: ResidencePage,
    line: &'a Line,
) -> Option<&'a Place>
    requires process { is_among pids pid ≡ true }
    requires standing { IsStanding standing.now }
    ensures { option_copied result
        ≡ fault_touches.touch_in standing.now.board.library (state_of standing.now.board) pid at.residence.serial at.page line.now.command line.now.reply }
{
    match (&line.command, &line.reply) {
        (Command::Touch(place), Reply::Fine)
            if serial_named(standing, pid, place) == at.residence.serial
                && covers(place, at.page) => { Some(place) }
        _ => None,
    }
}

// The same of what a process does next.
fn next_touch<'a>(
    standing: &Standing,
    pid: u32,
    at: ResidencePage,
    next: Option<ToldItem<'a>>,
) -> Option<&'a Place>
    requires process { is_among pids pid ≡ true }
    requires standing { IsStanding standing.now }
    ensures { option_copied result
        ≡ fault_touches.next_touch standing.now.board.library (state_of standing.now.board) pid at.residence.serial at.page (option_map item_of next.entry) }
{
    match next {
        Some(ToldItem::Line(told)) => touched_in(standing, pid, at, told.line),
        Some(ToldItem::Entry(_)) | None => None,
    }
}

/// Claims a page that is not mapped, and spends the right at once where the page had no fault. It tells whether that was so.
pub fn take_fault<R: Wait, L: Ledger>(
    hands: &Hands<'_, R>,
    board: &mut Board,
    view: &mut View,
    at: ReachedPage,
    steps: &mut Steps<L>,
) -> Result<bool, NoMemory>
    requires stands { StandsShown board.old view.old }
    requires going { view.old.holding.ended ≡ false }
    requires residence { at.residence < length view.old.residences }
    requires page { (d : ResidenceFor) → CanMap view.old (slice_index_or view.old.residences at.residence d) at.page }
    requires shared { (d : ResidenceFor) → IsSharedPage view.old (slice_index_or view.old.residences at.residence d) at.page }
    ensures { (d : ResidenceFor) → IfOk result
        (IsFaultTaken board.old board.new view.old view.new (slice_index_or view.old.residences at.residence d) at.page) }
{
    pages_stand();
    histories_grow();
    board.history();
    let mut bytes = view.prepare_page(hands.alloc)?;
    let Some(buffer) = Arc::get_mut(&mut bytes) else {
        return Err(NoMemory);
    };
    view.follow(board);
    match view.claim(board, at.residence, at.page)? {
        Claim::Right(right) => {
            let fixed = view.fix(at.residence, right, buffer, steps);
            view.publish(hands.rt, at.residence, at.page, fixed, bytes);
            view.map_shared(hands.rt, at.residence, at.page);
            Ok(true)
        }
        Claim::Taken => Ok(false),
    }
}

// The number of the residence of the module that a name means, among those that the process of a view reaches. The touch of no
// bytes finds it.
fn residence_of(alloc: Global, view: &View, name: &Name, object: u32) -> Result<usize, NoMemory>
    requires going { view.now.holding.ended ≡ false }
    requires object { HasObject view.now name.now object }
    ensures { IfOk result (IsReachedNamed view.now name.now) }
{
    let nothing = Place {
        module: name.copied(alloc)?,
        object,
        offset: 0,
        len: 0,
    };
    match view.check_touch(&nothing) {
        Ok(residence) => Ok(residence),
        Err(_) => unreachable!(),
    }
}

// Makes the fault of a page that may be made present and had none, in the residence of the module that a name means.
fn make_fault<R: Wait, L: Ledger>(
    hands: &Hands<'_, R>,
    standing: &mut Standing,
    view: &mut View,
    fault: (ResidencePage, &Name),
    steps: &mut Steps<L>,
) -> Result<(), NoMemory>
    requires kept { IsStanding standing.old }
    requires stands { StandsShown standing.old.board view.old }
    requires may { may_ask standing.old.board.library (state_of standing.old.board) view.old.holding.pid
        (asks.Fault fault.0.residence.serial fault.0.residence.«module» fault.0.page) ≡ true }
    requires first { has_fault standing.old.board.history fault.0.residence.serial fault.0.page ≡ false }
    requires named { serial_of (residence_named standing.old.board.library (state_of standing.old.board) view.old.holding.pid fault.1.now)
        ≡ fault.0.residence.serial }
    ensures { OnOk result (IsFaultMade standing.old standing.new view.old view.new fault.entry.0) }
{
    let (at, name) = fault;
    standing.board.history();
    residences_stand();
    histories_grow();
    let residence = residence_of(hands.alloc, view, name, at.page.object)?;
    let page = ReachedPage {
        residence,
        page: at.page,
    };
    let was_first = take_fault(hands, &mut standing.board, view, page, steps)?;
    prove!(was_first);
    standing.follow()
}

/// Plays a fault; what the process does next that is for a command has to be the touch that made it.
pub fn play_fault<R: Wait, L: Ledger>(
    hands: &Hands<'_, R>,
    standing: &mut Standing,
    view: &mut View,
    fault: (ResidencePage, Option<ToldItem<'_>>),
    steps: &mut Steps<L>,
) -> Result<Option<CheckKind>, NoMemory>
    requires kept { IsStanding standing.old }
    requires stands { StandsShown standing.old.board view.old }
    ensures { IfOk result (λ answer. (j : Judge) (before after : List Item) (x : Entry) (command : Option Asked)
        → x.deed ≡ deeds.Fault fault.entry.0.residence.serial fault.entry.0.residence.«module» fault.entry.0.page → CanPlay j before (entry x) command
        → option_map item_of fault.entry.1 ≡ next_after (entry x) after → StandsAlone j before (entry x ∷ after) standing.old view.old x.pid
        → IsPlayedAlone j before (entry x) after standing.new view.new x.pid answer) }
{
    let (at, next) = fault;
    mapped_pages_move();
    standing.board.history();
    let pid = view.pid();
    if !may_fault(standing, view, at.residence, at.page) {
        return Ok(Some(CheckKind::Refused));
    }
    if standing.faulted.has(at.residence.serial, at.page) {
        return Ok(Some(CheckKind::Fault));
    }
    let Some(place) = next_touch(standing, pid, at, next) else {
        return Ok(Some(CheckKind::Fault));
    };
    make_fault(hands, standing, view, (at, &place.module), steps)?;
    Ok(None)
}
