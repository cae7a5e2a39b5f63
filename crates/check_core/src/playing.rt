//! One item, judged of all kinds.

ghost use Rattle.std.specs.Prelude.{◌≡◌, ◌↔◌, ◌≤◌, ◌<◌, ◌-◌, ◌^◌, ℕ, [], ◌∷◌, ◌++◌, List, Option, None, Ok, true, IfOk, IsTrue, length, option_map};
ghost use Rattle.load_model.specs.declared.commands.Command.{Command};
ghost use Rattle.session_model.specs.Merging.{Item, is_command_of};
ghost use Rattle.check_model.specs.Told.{Told};
ghost use Rattle.check_model.specs.Checks.{Judge, CommandIsNext, FrontFits, process_of};
ghost use Rattle.check_core.specs.NextCommands.{AreDone, done_of, done_after};
ghost use Rattle.check_core.specs.ToldItems.{item_of, item_shown};
ghost use Rattle.check_core.specs.PlayedItems.{IsJudgedItem, IsJudgeOf, StandsBefore, IsOfScript};

use crate::items::ToldItem;
use crate::next::{count_command, entry_is_next, line_is_next, next_command};
use crate::player::Player;
use check_model::CheckKind;
use lx_types::NoMemory;
use mod_graph::Library;
use session_model::Script;

/// By what a transcript is judged: the modules, the scripts, and the number of all entries.
#[derive(Clone, Copy)]
pub struct JudgedBy<'a> {
    pub lib: &'a Library,
    pub scripts: &'a [Script],
    pub most: u64,
}

// Whether a line's number of entries in front is at most that of all, and does not fall within its process.
fn front_fits(item: ToldItem<'_>, most: u64) -> bool
    ensures { IsTrue result ↔ FrontFits (item_shown item.entry).low most (item_of item.entry) }
{
    match item {
        ToldItem::Entry(_) => true,
        ToldItem::Line(told) => told.low <= told.line.front && told.line.front <= most,
    }
}

// Whether an item is for the next command of its process's script, or a fault.
fn is_next(by: JudgedBy<'_>, done: &[usize], item: ToldItem<'_>) -> bool
    requires { length done.now ≡ length by.scripts.now }
    ensures { (j : Judge) (before : List Item) → j.lib ≡ by.entry.lib.now → j.scripts ≡ by.entry.scripts.now → AreDone j before done.now
        → (IsTrue result ↔ CommandIsNext j before (item_of item.entry)) }
{
    match item {
        ToldItem::Entry(told) => entry_is_next(by.lib, by.scripts, done, told.entry),
        ToldItem::Line(told) => line_is_next(by.scripts, done, told.pid, told.line),
    }
}

// Counts the command of an item, if it is for one.
fn count_item(done: &mut [usize], item: ToldItem<'_>)
    requires process { (1 ≤ process_of (item_of item)) × (process_of (item_of item) ≤ length done.old) }
    requires few { is_command_of (process_of (item_of item)) (item_of item) ≡ true → done_of done.old (process_of (item_of item)) < 2 ^ 64 - 1 }
    ensures { done.new ≡ done_after done.old (item_of item.entry) }
{
    if item.is_command() {
        count_command(done, item.process());
    }
}

/// What is wrong first with an item, of all kinds. Where nothing is, the player has done it, and its command is counted.
pub fn judge_item<P: Player>(
    by: JudgedBy<'_>,
    player: &mut P,
    done: &mut [usize],
    item: ToldItem<'_>,
    next: Option<ToldItem<'_>>,
) -> Result<Option<CheckKind>, NoMemory>
    requires { (j : Judge) × (t : Told) × (before : List Item) × (after : List Item) × IsJudgeOf j t by.lib.now by.scripts.now by.most
        × StandsBefore (P.stands player.old) j before (item_of item ∷ after) done.old × IsOfScript j (item_of item) after (option_map item_of next) }
    ensures judged { IfOk result (λ answer. (j : Judge) (t : Told) (before after : List Item) → IsJudgeOf j t by.entry.lib.now by.entry.scripts.now by.entry.most
        → StandsBefore (P.stands player.old) j before (item_of item.entry ∷ after) done.old → IsOfScript j (item_of item.entry) after (option_map item_of next.entry)
        → IsJudgedItem j t (item_shown item.entry).low before (item_of item.entry) after answer) }
    ensures more { result ≡ Ok None → (j : Judge) (t : Told) (before after : List Item) → IsJudgeOf j t by.entry.lib.now by.entry.scripts.now by.entry.most
        → StandsBefore (P.stands player.old) j before (item_of item.entry ∷ after) done.old → IsOfScript j (item_of item.entry) after (option_map item_of next.entry)
        → StandsBefore (P.stands player.new) j (before ++ item_of item.entry ∷ []) after done.new }
{
    if !front_fits(item, by.most) {
        return Ok(Some(CheckKind::Front));
    }
    if !is_next(by, done, item) {
        return Ok(Some(CheckKind::Command));
    }
    let command = next_command(by.scripts, done, item.process());
    if let Some(kind) = player.play(item, command, next)? {
        return Ok(Some(kind));
    }
    count_item(done, item);
    Ok(None)
}
