//! What a transcript tells, judged whole.

ghost use Rattle.std.specs.Prelude.{◌≡◌, ◌≤◌, ◌<◌, ◌^◌, [], IfOk, length};
ghost use Rattle.std.specs.List.{AllByRecursion};
ghost use Rattle.lx_types.specs.declared.limits.TheConstants.{MAX_PROCESSES};
ghost use Rattle.session_model.specs.Merging.{merge_of};
ghost use Rattle.check_model.specs.Places.{item_places, numbered_merge, numbered_scripts, places, after_entries, after_scripts, last_line};
ghost use Rattle.check_model.specs.Checks.{Judge};
ghost use Rattle.check_core.specs.Judged.{IsJudged};
ghost use Rattle.check_core.specs.NextCommands.{AreDone};
ghost use Rattle.check_core.specs.PlayedItems.{IsJudgeOf, IsOneOf};
ghost use Rattle.check_core.specs.ToldRun.{told_of};
ghost use Rattle.check_core.specs.WholeRuns.{AreItemsJudged};

use crate::ahead::next_items;
use crate::counts::line_after;
use crate::fronts::beyond_fault;
use crate::headings::heading_fault;
use crate::judging::judge_items;
use crate::merged::merged_items;
use crate::player::Player;
use crate::playing::JudgedBy;
use crate::summary::summary_fault;
use crate::told::ToldRun;
use check_model::CheckFault;
use lx_types::NoMemory;
use session_model::ScriptLines;
use std::alloc::Global;

// The line after scripts of which the heading of the first stands at line `first`.
fn line_after_scripts(first: u64, steady: &[ScriptLines]) -> u64
    requires { after_scripts first steady.now < 2 ^ 64 }
    ensures { result ≡ after_scripts first steady.now }
{
    let mut line = first;
    for script in steady {
        line += 1 + script.lines.as_slice().len() as u64;
    }
    line
}

/// The first item with which something is wrong, and how many commands of each script were done before.
#[derive(Drop)]
pub struct ItemsJudged {
    pub fault: Option<CheckFault>,
    pub done: Vec<usize>,
}

// Judges all items, once the headings are right. The heading of the first process stands at line `first`.
fn judge_merge<P: Player>(
    alloc: Global,
    by: JudgedBy<'_>,
    player: &mut P,
    first: u64,
    told: ToldRun<'_>,
) -> Result<ItemsJudged, NoMemory>
    requires entries { after_entries 2 told.history.now < 2 ^ 64 }
    requires room { after_scripts first told.steady.now < 2 ^ 64 }
    requires few { length told.steady.now ≤ MAX_PROCESSES }
    requires scripts { length told.steady.now ≡ length by.scripts.now }
    requires processes { AllByRecursion (λ x. IsOneOf (length told.steady.now) x.pid) told.history.now }
    requires stands { (j : Judge) × IsJudgeOf j (told_of told) by.lib.now by.scripts.now by.most × P.stands player.old j [] (merge_of told.history.now told.steady.now) }
    ensures { IfOk result (λ judged. (j : Judge) → IsJudgeOf j (told_of told.entry) by.entry.lib.now by.entry.scripts.now by.entry.most
        → P.stands player.old j [] (merge_of told.entry.history.now told.entry.steady.now) → AreItemsJudged j (told_of told.entry) first judged) }
{
    let items = merged_items(alloc, first, told)?;
    let next = next_items(alloc, items.as_slice())?;
    let mut done = vec![in alloc; 0; by.scripts.len()]?;
    let fault = judge_items(
        by,
        player,
        done.as_mut_slice(),
        items.as_slice(),
        next.as_slice(),
    )?;
    Ok(ItemsJudged { fault, done })
}

/// What is wrong first with what a transcript tells, or nothing: judged against the scripts of a session, by a player that has
/// done nothing yet.
pub fn judge<P: Player>(
    alloc: Global,
    by: JudgedBy<'_>,
    player: &mut P,
    told: ToldRun<'_>,
) -> Result<Option<CheckFault>, NoMemory>
    requires room { last_line (told_of told).run < 2 ^ 64 }
    requires few { length told.steady.now ≤ MAX_PROCESSES }
    requires processes { AllByRecursion (λ x. IsOneOf (length told.steady.now) x.pid) told.history.now }
    requires stands { (j : Judge) × IsJudgeOf j (told_of told) by.lib.now by.scripts.now by.most × P.stands player.old j [] (merge_of told.history.now told.steady.now) }
    ensures { IfOk result (λ answer. (j : Judge) → IsJudgeOf j (told_of told.entry) by.entry.lib.now by.entry.scripts.now by.entry.most
        → P.stands player.old j [] (merge_of told.entry.history.now told.entry.steady.now) → IsJudged j (told_of told.entry) (places (told_of told.entry).run j.scripts) answer) }
{
    let first = line_after(2, told.history);
    if let Some(fault) = heading_fault(first, told.steady, by.scripts) {
        return Ok(Some(fault));
    }
    let judged = judge_merge(alloc, by, player, first, told)?;
    if let Some(fault) = judged.fault {
        return Ok(Some(fault));
    }
    if let Some(fault) = beyond_fault(first, told.steady, by.most) {
        return Ok(Some(fault));
    }
    let line = line_after_scripts(first, told.steady);
    let done = judged.done;
    Ok(summary_fault(line, told, by.scripts, done.as_slice()))
}
