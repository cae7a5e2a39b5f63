//! What each process does next, by the places of items.

ghost use Rattle.std.specs.Prelude.{◌≡◌, ◌≤◌, ℕ, map, IfOk};
ghost use Rattle.std.specs.List.{AllByRecursion};
ghost use Rattle.lx_types.specs.declared.limits.TheConstants.{MAX_PROCESSES};
ghost use Rattle.check_model.specs.Checks.{process_of};
ghost use Rattle.check_core.specs.ToldItems.{item_of, AreNext};

use crate::items::ToldItem;
use lx_types::{MAX_PROCESSES, NoMemory};
use std::alloc::Global;

/// For each item the place of its process's next one that is for a command, or the number of all where it has none.
pub fn next_items(alloc: Global, items: &[ToldItem<'_>]) -> Result<Vec<usize>, NoMemory>
    requires { AllByRecursion (λ x. process_of (item_of x) ≤ MAX_PROCESSES) items.now }
    ensures { IfOk result (λ next. AreNext (map item_of items.now) next.items) }
{
    let mut next = vec![in alloc; items.len(); items.len()]?;
    let mut latest = vec![in alloc; items.len(); MAX_PROCESSES as usize + 1]?;
    for place in (0..items.len()).rev() {
        let item = &items[place];
        let pid = item.process() as usize;
        next[place] = latest[pid];
        if item.is_command() {
            latest[pid] = place;
        }
    }
    Ok(next)
}
