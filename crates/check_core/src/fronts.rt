//! Lines with more entries in front than there are.

ghost use Rattle.std.specs.Prelude.{◌≡◌, ◌<◌, ◌+◌, ◌^◌, ℕ, length, flat_map};
ghost use Rattle.check_model.specs.Checks.{Judge};
ghost use Rattle.check_model.specs.Told.{Told};
ghost use Rattle.check_model.specs.Places.{lines_beyond, numbered_lines, numbered_scripts, after_scripts};
ghost use Rattle.check_core.specs.Judged.{IsJudged};

use check_model::{CheckFault, CheckKind};
use session_model::{Line, ScriptLines};

// The first line of a process with more entries in front than there are. Its first line has this number.
fn line_beyond(first: u64, lines: &[Line], most: u64) -> Option<CheckFault>
    requires { first + length lines.now < 2 ^ 64 }
    ensures { (j : Judge) (t : Told) (pid low : ℕ) → length t.run.history ≡ most
        → IsJudged j t (lines_beyond most (pid, numbered_lines first low lines.now)) result }
{
    for (place, line) in lines.iter().enumerate() {
        if line.front > most {
            return Some(CheckFault {
                line: first + place as u64,
                kind: CheckKind::Front,
            });
        }
    }
    None
}

/// The first line with more entries in front than there are, process by process. The heading of the first process stands at
/// line `first`.
pub fn beyond_fault(first: u64, steady: &[ScriptLines], most: u64) -> Option<CheckFault>
    requires { after_scripts first steady.now < 2 ^ 64 }
    ensures { (j : Judge) (t : Told) (pid : ℕ) → length t.run.history ≡ most
        → IsJudged j t (flat_map (lines_beyond most) (numbered_scripts pid first steady.now)) result }
{
    let Some((told, more)) = steady.split_first() else {
        return None;
    };
    let lines = told.lines.as_slice();
    if let Some(fault) = line_beyond(first + 1, lines, most) {
        return Some(fault);
    }
    beyond_fault(first + 1 + lines.len() as u64, more, most)
}
