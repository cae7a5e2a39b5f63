//! The numbers of the processes of a transcript, against those of the scripts.

ghost use Rattle.std.specs.Prelude.{◌<◌, ◌^◌};
ghost use Rattle.check_model.specs.Checks.{Judge};
ghost use Rattle.check_model.specs.Told.{Told};
ghost use Rattle.check_model.specs.Places.{headings, after_scripts};
ghost use Rattle.check_core.specs.Judged.{IsJudged};

use check_model::{CheckFault, CheckKind};
use session_model::{Script, ScriptLines};

// The number of the script at this line is another.
fn scripts_fault(line: u64) -> Option<CheckFault>
    ensures { result ≡ Some (record { line = line; kind = kinds.Scripts }) }
{
    Some(CheckFault {
        line,
        kind: CheckKind::Scripts,
    })
}

ghost use Rattle.std.specs.Prelude.{◌≡◌, Some};
ghost use Rattle.check_model.specs.declared.kinds.CheckKind.TheVariants as kinds;

/// The first heading whose number is not that of the session's script, or where one is wanting or too many. The first
/// heading stands at line `first`.
pub fn heading_fault(first: u64, steady: &[ScriptLines], scripts: &[Script]) -> Option<CheckFault>
    requires { after_scripts first steady.now < 2 ^ 64 }
    ensures { (j : Judge) (t : Told) → IsJudged j t (headings first steady.now scripts.now) result }
{
    let Some((told, more)) = steady.split_first() else {
        return if scripts.is_empty() {
            None
        } else {
            scripts_fault(first)
        };
    };
    let Some((script, later)) = scripts.split_first() else {
        return scripts_fault(first);
    };
    if told.pid != script.pid {
        return scripts_fault(first);
    }
    heading_fault(first + 1 + told.lines.as_slice().len() as u64, more, later)
}
