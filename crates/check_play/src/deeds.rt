//! Entries of commands.

ghost use Rattle.std.specs.Prelude.{◌≡◌, ◌∷◌, List, Some, None, true, IfOk};
ghost use Rattle.load_model.specs.State.{pids, is_among};
ghost use Rattle.load_model.specs.Asks.{ask_in};
ghost use Rattle.load_model.specs.Step.{FitsPlace};
ghost use Rattle.load_model.specs.ViewAnswers.{view_refusal};
ghost use Rattle.session_model.specs.Merging as items;
ghost use Rattle.session_model.specs.Merging.{Item, AsksFor};
ghost use Rattle.load_core.specs.BoardState.{state_of};
ghost use Rattle.check_model.specs.Checks.{Judge};
ghost use Rattle.check_core.specs.PlayedItems.{CanPlay};
ghost use Rattle.play_laws.specs.CommandAsks.{names_its_residence};
ghost use Rattle.check_play.specs.Standing.{IsStanding, StandsShown};
ghost use Rattle.check_play.specs.Playing.{StandsAlone, IsPlayedAlone};
ghost use Rattle.check_play.specs.PlayedEntries.{IsPlayable};

use crate::asking::makes_entry;
use crate::hands::Hands;
use crate::standing::Standing;
use crate::untouched::play_untouched;
use check_core::{entries_are_the_historys, views_answer_at_places};
use check_model::CheckKind;
use load_model::{Command, Deed, Entry, Refusal};
use lx_types::NoMemory;
use page_fix::Steps;
use play_laws::{entries_by_refusals, mapped_pages_move};
use process_view::View;
use session_model::merges_are_histories;
use std::alloc::Global;
use std::sync::Wait;
use std::sync::ledger::Ledger;

// Whether a process reaches the residence that an entry names, if it names one.
fn is_reached(standing: &Standing, pid: u32, entry: (&Entry, &Command)) -> bool
    requires process { is_among pids pid ≡ true }
    requires standing { IsStanding standing.now }
    requires asks { AsksFor standing.now.board.library entry.1.now (ask_in entry.0.now.deed) }
    ensures { result ≡ names_its_residence standing.now.board.library (state_of standing.now.board) pid entry.entry.0.now.deed }
{
    let (told, _) = entry;
    match &told.deed {
        Deed::Write { serial, module, .. }
        | Deed::Debug { serial, module, .. }
        | Deed::Shared { serial, module, .. } => standing.is_attached(pid, *serial, *module),
        _ => true,
    }
}

// Plays an entry that uses touched pages alone, and is not refused.
fn play_touched(
    alloc: Global,
    standing: &mut Standing,
    view: &mut View,
    told: &Entry,
    command: &Command,
) -> Result<Option<CheckKind>, NoMemory>
    requires kept { IsStanding standing.old }
    requires playable { IsPlayable standing.old.board view.old told.now command.now }
    requires accepted { view_refusal view.old.library view.old.holding command.now ≡ None }
    ensures { IfOk result (λ answer. (j : Judge) (before after : List Item) → CanPlay j before (items.entry told.now) (Some command.now)
        → StandsAlone j before (items.entry told.now ∷ after) standing.old view.old told.now.pid
        → IsPlayedAlone j before (items.entry told.now) after standing.new view.new told.now.pid answer) }
{
    entries_by_refusals();
    merges_are_histories();
    views_answer_at_places();
    entries_are_the_historys();
    mapped_pages_move();
    view.pid();
    if !makes_entry(alloc, &mut standing.board, view, command, told)? {
        return Ok(Some(CheckKind::Entry));
    }
    standing.board.history();
    standing.follow()?;
    Ok(None)
}

/// Plays the entry of a command.
pub fn play_deed<R: Wait, L: Ledger>(
    hands: &Hands<'_, R>,
    standing: &mut Standing,
    view: &mut View,
    entry: (&Entry, &Command),
    steps: &mut Steps<L>,
) -> Result<Option<CheckKind>, NoMemory>
    requires kept { IsStanding standing.old }
    requires stands { StandsShown standing.old.board view.old }
    requires asks { AsksFor standing.old.board.library entry.1.now (ask_in entry.0.now.deed) }
    requires fits { FitsPlace entry.1.now }
    ensures { IfOk result (λ answer. (j : Judge) (before after : List Item) → CanPlay j before (items.entry entry.entry.0.now) (Some entry.entry.1.now)
        → StandsAlone j before (items.entry entry.entry.0.now ∷ after) standing.old view.old entry.entry.0.now.pid
        → IsPlayedAlone j before (items.entry entry.entry.0.now) after standing.new view.new entry.entry.0.now.pid answer) }
{
    entries_by_refusals();
    merges_are_histories();
    views_answer_at_places();
    mapped_pages_move();
    let (told, command) = entry;
    if !is_reached(standing, view.pid(), entry) {
        return Ok(Some(CheckKind::Refused));
    }
    match view.refusal(command) {
        None => play_touched(hands.alloc, standing, view, told, command),
        Some(refusal) => match refusal {
            Refusal::NotTouched { .. } => {
                let kind = play_untouched(hands, &mut standing.board, view, entry, steps)?;
                Ok(Some(kind))
            }
            _ => Ok(Some(CheckKind::Refused)),
        },
    }
}
