//! What the generator saves and says.

ghost use Rattle.std.specs.Prelude.{◌≤◌, All, IfOk, map};
ghost use Rattle.gen_core.specs.Doing.{AsksSave, DoesGen, NamesUnsaved, Saves, said_in};
ghost use Rattle.gen_core.specs.Generated.{HasLine, saved_of};

use crate::outputs::{Output, outputs};
use crate::telling::totals;
use answer_model::{DONE, Said, WRITE_FAILED};
use lx_ports::{Files, SaveFault};
use lx_types::{Bytes, NoMemory};
use std::alloc::Global;

/// What is said, and the name of the file that was not saved, where there is one.
#[derive(Drop)]
pub struct Made {
    pub said: Said,
    pub unsaved: Option<String>,
}

// Saves one file.
fn save_one<F: Files>(files: &mut F, output: &Output) -> Result<(), SaveFault>
    ensures { AsksSave (F.state files.old) (F.state files.new) (saved_of output.now) result }
{
    files.save(&output.name, output.bytes.as_slice())
}

// Saves the files in their order, and says the line; none is saved after the first that is not, which is said. It takes no
// memory.
fn save_all<F: Files>(files: &mut F, outputs: Vec<Output>, line: Bytes) -> Made
    requires { All HasLine outputs.items }
    ensures saves { Saves (map saved_of outputs.items) line (F.state files.old) (F.state files.new) result.said }
    ensures unsaved { NamesUnsaved result }
{
    for output in outputs {
        if save_one(files, &output).is_err() {
            return Made {
                said: Said {
                    status: WRITE_FAILED,
                    text: output.failed,
                },
                unsaved: Some(output.name),
            };
        }
    }
    Made {
        said: Said {
            status: DONE,
            text: line,
        },
        unsaved: None,
    }
}

/// Makes the object files, the definition files and the session of `count` modules, from 1 to 64, under names that begin with
/// the prefix, saves them, and says how many pages and record sources the modules have and what their words in memory sum to.
/// All is made, linked and added before the first file is saved: where there is no memory, none is.
pub fn generate<F: Files>(
    alloc: Global,
    files: &mut F,
    count: u32,
    prefix: &str,
) -> Result<Made, NoMemory>
    requires first { 1 ≤ count }
    requires last { count ≤ 64 }
    ensures does { DoesGen (record { count = count; prefix = prefix.now }) (F.state files.old) (F.state files.new) (said_in result) }
    ensures unsaved { IfOk result NamesUnsaved }
{
    let outputs = outputs(alloc, count, prefix)?;
    let line = totals(alloc, count)?.line(alloc)?;
    Ok(save_all(files, outputs, line))
}
