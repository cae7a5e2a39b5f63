//! All items, judged one after another.

ghost use Rattle.std.specs.Prelude.{◌≡◌, ◌<◌, [], None, Ok, IfOk, length, map, slice_get, slice_index};
ghost use Rattle.std.specs.List.{AllByRecursion};
ghost use Rattle.check_model.specs.Told.{Told};
ghost use Rattle.check_model.specs.Places.{item_places};
ghost use Rattle.check_model.specs.Checks.{Judge, process_of};
ghost use Rattle.check_core.specs.Judged.{IsJudged};
ghost use Rattle.check_core.specs.ToldItems.{item_of, item_shown, AreNext};
ghost use Rattle.check_core.specs.NextCommands.{AreDone};
ghost use Rattle.check_core.specs.PlayedItems.{IsJudgeOf, StandsBefore, IsOneOf};

use crate::items::ToldItem;
use crate::player::Player;
use crate::playing::{JudgedBy, judge_item};
use check_model::CheckFault;
use lx_types::NoMemory;

// The item at the place that `next` has for one.
fn later<'a>(items: &[ToldItem<'a>], next: &[usize], place: usize) -> Option<ToldItem<'a>>
    requires { place < length next.now }
    ensures { result ≡ slice_get items.now (slice_index next.now place) }
{
    items.get(next[place]).copied()
}

/// The first item with which something is wrong, of items in the order in which they are judged; by places, `next` says what the
/// process of each does next. The player does those before it.
pub fn judge_items<P: Player>(
    by: JudgedBy<'_>,
    player: &mut P,
    done: &mut [usize],
    items: &[ToldItem<'_>],
    next: &[usize],
) -> Result<Option<CheckFault>, NoMemory>
    requires next { AreNext (map item_of items.now) next.now }
    requires processes { AllByRecursion (λ x. IsOneOf (length by.scripts.now) (process_of (item_of x))) items.now }
    requires stands { (j : Judge) × (t : Told) × IsJudgeOf j t by.lib.now by.scripts.now by.most
        × StandsBefore (P.stands player.old) j [] (map item_of items.now) done.old }
    ensures judged { IfOk result (λ answer. (j : Judge) (t : Told) → IsJudgeOf j t by.entry.lib.now by.entry.scripts.now by.entry.most
        → StandsBefore (P.stands player.old) j [] (map item_of items.now) done.old → IsJudged j t (item_places [] (map item_shown items.now)) answer) }
    ensures more { result ≡ Ok None → (j : Judge) (t : Told) → IsJudgeOf j t by.entry.lib.now by.entry.scripts.now by.entry.most
        → StandsBefore (P.stands player.old) j [] (map item_of items.now) done.old → AreDone j (map item_of items.now) done.new }
{
    for (place, item) in items.iter().enumerate() {
        let after = later(items, next, place);
        if let Some(kind) = judge_item(by, player, done, *item, after)? {
            let line = item.number();
            return Ok(Some(CheckFault { line, kind }));
        }
    }
    Ok(None)
}
