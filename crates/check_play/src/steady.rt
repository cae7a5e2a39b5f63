//! Steady lines: what a process was answered without an entry.

ghost use Rattle.std.specs.Prelude.{◌≡◌, ◌∷◌, ◌++◌, [], ℕ, List, None, IfOk};
ghost use Rattle.session_model.specs.Merging.{Item, line};
ghost use Rattle.load_core.specs.BoardState.{BoardState};
ghost use Rattle.check_model.specs.Checks.{Judge};
ghost use Rattle.check_core.specs.PlayedItems.{IsPlayed};
ghost use Rattle.play_laws.specs.MappedPages.{accepted_in};
ghost use Rattle.check_play.specs.AtPlaces.{IsBoardAt, IsViewAt, fault_unless};

use crate::replies::is_reply;
use check_model::CheckKind;
use lx_types::NoMemory;
use play_laws::{mapped_pages_move, views_reply_at_places};
use process_view::View;
use session_model::Line;
use std::alloc::Global;

// What is wrong with a reply, if it is not right.
fn fault_unless(is_right: bool) -> Option<CheckKind>
    ensures { result ≡ fault_unless is_right }
{
    if is_right {
        None
    } else {
        Some(CheckKind::Reply)
    }
}

/// What is wrong with a line that is no accepted touch, of the kinds that a player tells: its reply is another than what the view of
/// its process answers at the place. The view stands for its process at the next place as well.
pub fn play_reply(alloc: Global, view: &View, told: &Line) -> Result<Option<CheckKind>, NoMemory>
    ensures judged { IfOk result (λ answer. (j : Judge) (before after : List Item) (b : BoardState) (pid : ℕ) → accepted_in told.now.command told.now.reply ≡ None
        → IsBoardAt j before b → IsViewAt j before (line pid told.now ∷ after) b view.now pid → IsPlayed j before (line pid told.now) after answer) }
    ensures stands { (j : Judge) (before after : List Item) (b : BoardState) (pid : ℕ) → accepted_in told.now.command told.now.reply ≡ None
        → IsViewAt j before (line pid told.now ∷ after) b view.now pid → IsViewAt j (before ++ line pid told.now ∷ []) after b view.now pid }
{
    views_reply_at_places();
    mapped_pages_move();
    let is_right = is_reply(alloc, view, &told.command, &told.reply)?;
    Ok(fault_unless(is_right))
}
