//! Touches that were accepted.

ghost use Rattle.std.specs.Prelude.{◌≡◌, ◌<◌, ◌∷◌, [], ℕ, true, List, Some, IfOk};
ghost use Rattle.page_frames.specs.Residences.{ResidenceFor};
ghost use Rattle.load_model.specs.State.{pids, is_among};
ghost use Rattle.load_model.specs.Memory.{page, pages_over};
ghost use Rattle.load_model.specs.Refusals.{residence_named};
ghost use Rattle.load_core.specs.BoardState.{state_of};
ghost use Rattle.session_model.specs.declared.sessions.Line.{Line};
ghost use Rattle.session_model.specs.Merging.{Item, line};
ghost use Rattle.merge_laws.specs.OwnStates.{are_fixed};
ghost use Rattle.check_model.specs.Checks.{Judge};
ghost use Rattle.play_laws.specs.MappedPages.{accepted_in};
ghost use Rattle.check_play.specs.Standing.{IsStanding, StandsShown};
ghost use Rattle.check_play.specs.Mapping.{residence_at, IsPageIn, HasMore};
ghost use Rattle.check_play.specs.Playing.{StandsAlone, IsPlayedAlone};

use crate::hands::{Hands, ReachedPage, page_buffer};
use crate::standing::Standing;
use check_core::touched_pages_decide_places;
use check_model::CheckKind;
use load_model::{Place, residences_stand, views_answer};
use lx_types::{NoMemory, PageId};
use page_fix::Steps;
use play_laws::mapped_pages_move;
use process_view::{View, pages_stand, span_of};
use std::alloc::Global;
use std::sync::Wait;
use std::sync::ledger::{Blank, Ledger};

// Maps a page that is a private one, or had its fault.
fn map_page<R: Wait, L: Ledger>(
    hands: &Hands<'_, R>,
    view: &mut View,
    at: ReachedPage,
    steps: &mut Steps<L>,
) -> Result<(), NoMemory>
    requires { IsPageIn view.old at.residence at.page }
    ensures { IfOk result (λ _. (d : ResidenceFor) → HasMore view.old view.new (residence_at view.old at.residence d) at.page.object (at.page.page ∷ [])) }
{
    pages_stand();
    if view.is_mapped(at.residence, at.page) {
        return Ok(());
    }
    view.reserve_page()?;
    if view.is_shared_page(at.residence, at.page) {
        view.map_shared(hands.rt, at.residence, at.page);
    } else {
        let buffer = page_buffer(hands.alloc)?;
        view.map_private(at.residence, at.page, buffer, steps);
    }
    Ok(())
}

// Maps the pages of a place that may be touched, of which each is a private one or had its fault.
fn map_place<R: Wait, L: Ledger>(
    hands: &Hands<'_, R>,
    view: &mut View,
    residence: usize,
    place: &Place,
    steps: &mut Steps<L>,
) -> Result<(), NoMemory>
    requires { (n : ℕ) → is_among (pages_over place.now.offset place.now.len) n ≡ true → IsPageIn view.old residence (page place.now.object n) }
    ensures { IfOk result (λ _. (d : ResidenceFor)
        → HasMore view.old view.new (residence_at view.old residence d) place.now.object (pages_over place.now.offset place.now.len)) }
{
    let span = span_of(place.offset, place.len);
    for number in span.first..span.end {
        let page = PageId {
            object: place.object,
            page: number,
        };
        map_page(hands, view, ReachedPage { residence, page }, steps)?;
    }
    Ok(())
}

// Whether each page of a place that has to have a fault had it.
fn follows(standing: &Standing, pid: u32, at: &Place) -> bool
    requires process { is_among pids pid ≡ true }
    requires standing { IsStanding standing.now }
    ensures { result ≡ are_fixed standing.now.board.library standing.now.board.history at.now
        (residence_named standing.now.board.library (state_of standing.now.board) pid at.now.«module») }
{
    match standing.named(pid, &at.module) {
        Some(residence) => standing.are_fixed(residence, at),
        None => false,
    }
}

/// Plays the line of a touch that was accepted. Nobody counts the steps.
pub fn play_touch<R: Wait, L: Ledger>(
    hands: &Hands<'_, R>,
    standing: &Standing,
    view: &mut View,
    at: &Place,
    blank: Blank,
) -> Result<Option<CheckKind>, NoMemory>
    requires name { blank.name ≡ L.name }
    requires parts { blank.parts ≡ L.parts }
    requires some { 0 < blank.parts }
    requires kept { IsStanding standing.now }
    requires stands { StandsShown standing.now.board view.old }
    ensures { IfOk result (λ answer. (j : Judge) (before after : List Item) (l : Line) (pid : ℕ) → accepted_in l.command l.reply ≡ Some at.now
        → StandsAlone j before (line pid l ∷ after) standing.now view.old pid → IsPlayedAlone j before (line pid l) after standing.now view.new pid answer) }
{
    touched_pages_decide_places();
    mapped_pages_move();
    residences_stand();
    views_answer();
    standing.board.history();
    if !follows(standing, view.pid(), at) {
        return Ok(Some(CheckKind::Touch));
    }
    let Ok(residence) = view.check_touch(at) else {
        return Ok(Some(CheckKind::Reply));
    };
    let mut steps: Steps<L> = Steps::of(blank);
    map_place(hands, view, residence, at, &mut steps)?;
    Ok(None)
}
