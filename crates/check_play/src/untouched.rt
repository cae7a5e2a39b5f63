//! Entries of processes that have not touched all pages that they use.

ghost use Rattle.std.specs.Prelude.{◌≡◌, ◌∷◌, List, None, Some, false, IfOk};
ghost use Rattle.load_model.specs.declared.commands.Command.TheVariants as commands;
ghost use Rattle.load_model.specs.ViewAnswers.{view_refusal};
ghost use Rattle.page_frames.specs.Residences.{ResidenceFor};
ghost use Rattle.process_view.specs.Deeds.{IsSharedPage};
ghost use Rattle.session_model.specs.Merging as items;
ghost use Rattle.session_model.specs.Merging.{Item};
ghost use Rattle.check_model.specs.Checks.{Judge};
ghost use Rattle.check_core.specs.PlayedItems.{IsPlayed, CanPlay};
ghost use Rattle.check_play.specs.Standing.{StandsShown};
ghost use Rattle.check_play.specs.Mapping.{residence_at, IsPageIn};
ghost use Rattle.check_play.specs.AtPlaces.{IsBoardAt, IsViewAt};
ghost use Rattle.check_play.specs.PlayedEntries.{IsPlayable};
ghost use Rattle.check_play.specs.Untouched.{IsUntouched, IsSameState, IsMappedSo};

use crate::asking::makes_entry;
use crate::faults::take_fault;
use crate::hands::{Hands, ReachedPage};
use crate::standing::Standing;
use check_core::{entries_are_the_historys, views_answer_at_places};
use check_model::CheckKind;
use load_core::Board;
use load_model::{Command, Entry, Place, residences_stand};
use lx_types::{NoMemory, PageId};
use page_fix::Steps;
use play_laws::{entries_by_refusals, mapped_pages_move};
use process_view::{View, pages_stand, span_of};
use session_model::merges_are_histories;
use std::sync::Wait;
use std::sync::ledger::Ledger;

// Maps a page that all processes share, whether or not it had its fault.
fn map_page<R: Wait, L: Ledger>(
    hands: &Hands<'_, R>,
    board: &mut Board,
    view: &mut View,
    at: ReachedPage,
    steps: &mut Steps<L>,
) -> Result<(), NoMemory>
    requires stands { StandsShown board.old view.old }
    requires going { view.old.holding.ended ≡ false }
    requires page { IsPageIn view.old at.residence at.page }
    requires shared { (d : ResidenceFor) → IsSharedPage view.old (residence_at view.old at.residence d) at.page }
    ensures { (d : ResidenceFor) → IfOk result (λ _. IsMappedSo board.old board.new view.old view.new (residence_at view.old at.residence d) at.page) }
{
    pages_stand();
    board.history();
    if view.is_mapped(at.residence, at.page) {
        return Ok(());
    }
    if take_fault(hands, board, view, at, steps)? {
        return Ok(());
    }
    view.map_shared(hands.rt, at.residence, at.page);
    Ok(())
}

// Maps the pages of a place of shared data.
fn map_place<R: Wait, L: Ledger>(
    hands: &Hands<'_, R>,
    board: &mut Board,
    view: &mut View,
    place: &Place,
    steps: &mut Steps<L>,
) -> Result<(), NoMemory>
    requires stands { StandsShown board.old view.old }
    requires untouched { IsUntouched view.old (commands.Shared place.now) }
    ensures same { IfOk result (λ _. IsSameState board.old board.new view.old view.new) }
    ensures accepted { IfOk result (λ _. view_refusal view.new.library view.new.holding (commands.Shared place.now) ≡ None) }
{
    residences_stand();
    board.history();
    let residence = match view.check_touch(place) {
        Ok(residence) => residence,
        Err(_) => unreachable!(),
    };
    let span = span_of(place.offset, place.len);
    for number in span.first..span.end {
        let page = PageId {
            object: place.object,
            page: number,
        };
        map_page(hands, board, view, ReachedPage { residence, page }, steps)?;
    }
    Ok(())
}

/// What is wrong with an entry of a process that has not touched all its pages. What was read is looked at first.
pub fn play_untouched<R: Wait, L: Ledger>(
    hands: &Hands<'_, R>,
    board: &mut Board,
    view: &mut View,
    entry: (&Entry, &Command),
    steps: &mut Steps<L>,
) -> Result<CheckKind, NoMemory>
    requires playable { IsPlayable board.old view.old entry.0.now entry.1.now }
    requires untouched { IsUntouched view.old entry.1.now }
    ensures { IfOk result (λ kind. (j : Judge) (before after : List Item) → CanPlay j before (items.entry entry.entry.0.now) (Some entry.entry.1.now)
        → IsBoardAt j before board.old → IsViewAt j before (items.entry entry.entry.0.now ∷ after) board.old view.old entry.entry.0.now.pid
        → IsPlayed j before (items.entry entry.entry.0.now) after (Some kind)) }
{
    entries_by_refusals();
    merges_are_histories();
    views_answer_at_places();
    entries_are_the_historys();
    mapped_pages_move();
    view.pid();
    let (told, command) = entry;
    let Command::Shared(place) = command else {
        return Ok(CheckKind::Touch);
    };
    map_place(hands, board, view, place, steps)?;
    if makes_entry(hands.alloc, board, view, command, told)? {
        Ok(CheckKind::Touch)
    } else {
        Ok(CheckKind::Entry)
    }
}
