//! Steady lines by how many entries stand in front of them.

ghost use Rattle.std.specs.Prelude.{◌≡◌, ◌<◌, ◌≤◌, ◌+◌, ◌^◌, ◌++◌, ◌∷◌, ℕ, List, [], length, map, IfOk, OnOk, slice_index_or};
ghost use Rattle.lx_types.specs.declared.limits.TheConstants.{MAX_PROCESSES};
ghost use Rattle.check_model.specs.Places.{numbered_line, numbered_lines, numbered_scripts, after_scripts, Numbered};
ghost use Rattle.check_core.specs.ToldItems.{line_shown, all_lines, AreByFront};

use crate::items::ToldLine;
use lx_types::NoMemory;
use session_model::{Line, ScriptLines};
use std::alloc::Global;

// Adds the lines of a process, of which the first has this number.
fn push_script<'a>(
    all: &mut Vec<ToldLine<'a>>,
    pid: u32,
    first: u64,
    lines: &'a [Line],
) -> Result<(), NoMemory>
    requires { first + length lines.now < 2 ^ 64 }
    ensures { OnOk result (map line_shown all.new.items ≡ map line_shown all.old.items ++ map (numbered_line pid) (numbered_lines first 0 lines.now)) }
{
    let mut low = 0;
    for (place, line) in lines.iter().enumerate() {
        let number = first + place as u64;
        all.push(ToldLine {
            pid,
            number,
            low,
            line,
        })?;
        low = line.front;
    }
    Ok(())
}

/// All lines, process by process. The heading of the first process stands at line `first`.
pub fn all_lines<'a>(
    alloc: Global,
    first: u64,
    steady: &'a [ScriptLines],
) -> Result<Vec<ToldLine<'a>>, NoMemory>
    requires room { after_scripts first steady.now < 2 ^ 64 }
    requires few { length steady.now ≤ MAX_PROCESSES }
    ensures { IfOk result (λ all. map line_shown all.items ≡ all_lines (numbered_scripts 1 first steady.now)) }
{
    let mut all = Vec::new(alloc);
    let mut heading = first;
    for (place, script) in steady.iter().enumerate() {
        let lines = script.lines.as_slice();
        push_script(&mut all, place as u32 + 1, heading + 1, lines)?;
        heading += 1 + lines.len() as u64;
    }
    Ok(all)
}

// As many empty lists.
fn empty_lists<'a>(alloc: Global, count: usize) -> Result<Vec<Vec<ToldLine<'a>>>, NoMemory>
    ensures long { IfOk result (λ lists. length lists.items ≡ count) }
    ensures empty { IfOk result (λ lists. (front : ℕ) → slice_index_or (map (λ v. map line_shown v.items) lists.items) front [] ≡ []) }
{
    let mut lists = Vec::new(alloc);
    for _front in 0..count {
        lists.push(Vec::new(alloc))?;
    }
    Ok(lists)
}

// Adds a line to those with as many entries in front, where there is a list of them.
fn file_line<'a>(lists: &mut Vec<Vec<ToldLine<'a>>>, told: ToldLine<'a>) -> Result<(), NoMemory>
    ensures long { OnOk result (length lists.new.items ≡ length lists.old.items) }
    ensures each { OnOk result ((xs : List Numbered) → AreByFront (map (λ v. map line_shown v.items) lists.old.items) (length lists.old.items) xs
        → AreByFront (map (λ v. map line_shown v.items) lists.new.items) (length lists.old.items) (xs ++ line_shown told.entry ∷ [])) }
{
    let front = told.line.front;
    if front < lists.len() as u64 {
        lists[front as usize].push(told)?;
    }
    Ok(())
}

/// The lines with each number of entries in front, below a count. Lines with more are left out.
pub fn by_front<'a>(
    alloc: Global,
    all: &[ToldLine<'a>],
    count: usize,
) -> Result<Vec<Vec<ToldLine<'a>>>, NoMemory>
    ensures long { IfOk result (λ lists. length lists.items ≡ count) }
    ensures each { IfOk result (λ lists. AreByFront (map (λ v. map line_shown v.items) lists.items) count (map line_shown all.now)) }
{
    let mut lists = empty_lists(alloc, count)?;
    for told in all {
        file_line(&mut lists, *told)?;
    }
    Ok(lists)
}
