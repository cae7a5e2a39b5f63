//! A player that keeps what it does where an item is wrong, for a reader.

ghost use Rattle.session_model.specs.Merging.{Item};
ghost use Rattle.check_model.specs.Checks.{Judge};
ghost use Rattle.check_play.specs.Playing.{StandsTogether};

use check_core::{ToldItem, ToldLine};
use check_model::{CheckKind, Expected};
use check_play::{SessionPlayer, answer_of};
use load_model::Command;
use lx_types::NoMemory;
use session_model::ScriptLines;
use session_text::{print_answer, print_entry};
use std::alloc::Global;
use std::sync::Wait;

/// A player, with the steady lines by which processes have their numbers; and what it did where the last item was wrong. No clause
/// says what that is, and what is wrong does not rest on it.
#[derive(Drop)]
pub struct TellingPlayer<'a, R: Wait> {
    pub alloc: Global,
    pub player: SessionPlayer<'a, R>,
    pub steady: &'a [ScriptLines],
    pub expected: Option<Expected>,
}

impl<'a, R: Wait> TellingPlayer<'a, R> {
    // The entry that the board made last, as one of this number.
    fn entry(&self, number: u64) -> Result<Option<Expected>, NoMemory> {
        let board = &self.player.standing.board;
        match board.history().last() {
            Some(entry) => {
                let text = print_entry(self.alloc, board.library(), self.steady, number, entry)?;
                Ok(Some(Expected::Text(text)))
            }
            None => Ok(None),
        }
    }

    // What the view of its process answers to the command of a line.
    fn answer(&self, told: ToldLine<'_>) -> Result<Option<Expected>, NoMemory> {
        let place = (told.pid as usize).saturating_sub(1);
        let Some(view) = self.player.views.get(place) else {
            return Ok(None);
        };
        let command = &told.line.command;
        match answer_of(self.alloc, view, command)? {
            Some(reply) => {
                let text = print_answer(self.alloc, told.line.front, command, &reply)?;
                Ok(Some(Expected::Text(text)))
            }
            None => Ok(Some(Expected::Entry)),
        }
    }

    // What the player did instead of an item, if it is wrong so. So many entries stood in front of it.
    fn instead(
        &self,
        item: ToldItem<'_>,
        kind: Option<CheckKind>,
        before: usize,
    ) -> Option<Expected> {
        let expected = match (kind, item) {
            (Some(CheckKind::Entry), ToldItem::Entry(_)) => {
                self.entry((before as u64).saturating_add(1))
            }
            (Some(CheckKind::Reply), ToldItem::Line(told)) => self.answer(told),
            _ => Ok(None),
        };
        match expected {
            Ok(expected) => expected,
            // (where there is no memory for it, it is not told)
            Err(NoMemory) => None,
        }
    }
}

impl<'a, R: Wait> check_core::Player for TellingPlayer<'a, R> {
    ghost stands = { λ p j before after. StandsTogether j before after p.player.standing p.player.views.items };

    fn play(
        &mut self,
        item: ToldItem<'_>,
        command: Option<&Command>,
        next: Option<ToldItem<'_>>,
    ) -> Result<Option<CheckKind>, NoMemory> {
        let before = self.player.standing.board.history().len();
        let kind = self.player.play(item, command, next)?;
        self.expected = self.instead(item, kind, before);
        Ok(kind)
    }
}
