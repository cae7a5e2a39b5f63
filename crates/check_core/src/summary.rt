//! The last line of a transcript.

ghost use Rattle.std.specs.Prelude.{◌≡◌, [], ◌∷◌, length};
ghost use Rattle.session_model.specs.Merging.{merge_of};
ghost use Rattle.check_model.specs.Checks.{Judge};
ghost use Rattle.check_model.specs.Places.{summary};
ghost use Rattle.check_core.specs.Judged.{IsJudged};
ghost use Rattle.check_core.specs.NextCommands.{AreDone};
ghost use Rattle.check_core.specs.ToldRun.{told_of, summary_of};

use crate::counts::are_counts;
use crate::next::all_done;
use crate::told::ToldRun;
use check_model::{CheckFault, CheckKind};
use session_model::Script;

// What is wrong at the last line, by whether no command is left and whether its numbers are the run's.
fn summary_by(line: u64, done: bool, counted: bool) -> Option<CheckFault>
    ensures { result ≡ summary_of line done counted }
{
    let kind = if !done {
        CheckKind::Command
    } else if !counted {
        CheckKind::Count
    } else {
        return None;
    };
    Some(CheckFault { line, kind })
}

/// What is wrong at the last line, once each process has done so many commands: one is left, or a number is another.
pub fn summary_fault(
    line: u64,
    told: ToldRun<'_>,
    scripts: &[Script],
    done: &[usize],
) -> Option<CheckFault>
    requires { length done.now ≡ length scripts.now }
    ensures { (j : Judge) → j.scripts ≡ scripts.now → AreDone j (merge_of (told_of told.entry).run.history (told_of told.entry).run.steady) done.now
        → IsJudged j (told_of told.entry) (record { number = line; what = summary } ∷ []) result }
{
    let none_left = all_done(scripts, done);
    let counted = are_counts(told.counts, told.history, told.steady);
    summary_by(line, none_left, counted)
}
