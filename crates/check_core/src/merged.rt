//! The items of a transcript in the order in which they are judged.

ghost use Rattle.std.specs.Prelude.{◌≡◌, ◌<◌, ◌≤◌, ◌^◌, ◌++◌, length, map, IfOk, OnOk};
ghost use Rattle.lx_types.specs.declared.limits.TheConstants.{MAX_PROCESSES};
ghost use Rattle.check_model.specs.Places.{numbered_merge, numbered_scripts, after_entries, after_scripts};
ghost use Rattle.check_core.specs.ToldItems.{item_shown, line_shown};

use crate::counts::height;
use crate::items::{ToldEntry, ToldItem, ToldLine};
use crate::lines::{all_lines, by_front};
use crate::told::ToldRun;
use lx_types::NoMemory;
use std::alloc::Global;

// Adds lines.
fn push_lines<'a>(items: &mut Vec<ToldItem<'a>>, lines: &[ToldLine<'a>]) -> Result<(), NoMemory>
    ensures { OnOk result (map item_shown items.new.items ≡ map item_shown items.old.items ++ map line_shown lines.now) }
{
    for told in lines {
        items.push(ToldItem::Line(*told))?;
    }
    Ok(())
}

/// Each entry, and the lines that stand after it, by process and in their order; before all the lines without an entry in
/// front. Lines with more entries in front than there are are left out. The heading of the first process stands at line `first`.
pub fn merged_items<'a>(
    alloc: Global,
    first: u64,
    told: ToldRun<'a>,
) -> Result<Vec<ToldItem<'a>>, NoMemory>
    requires entries { after_entries 2 told.history.now < 2 ^ 64 }
    requires room { after_scripts first told.steady.now < 2 ^ 64 }
    requires few { length told.steady.now ≤ MAX_PROCESSES }
    ensures { IfOk result (λ items. map item_shown items.items ≡ numbered_merge (numbered_scripts 1 first told.entry.steady.now) told.entry.history.now) }
{
    let lines = all_lines(alloc, first, told.steady)?;
    let fronts = by_front(alloc, lines.as_slice(), told.history.len() + 1)?;
    let mut items = Vec::new(alloc);
    push_lines(&mut items, fronts[0].as_slice())?;
    let mut number = 2;
    for (place, entry) in told.history.iter().enumerate() {
        items.push(ToldItem::Entry(ToldEntry { number, entry }))?;
        push_lines(&mut items, fronts[place + 1].as_slice())?;
        number += height(&entry.deed);
    }
    Ok(items)
}
