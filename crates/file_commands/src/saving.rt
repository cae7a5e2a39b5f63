//! Saving a command's output.
ghost use Rattle.std.specs.Prelude.{◌≡◌};
ghost use Rattle.answer_model.specs.Outcome.{kept};
ghost use Rattle.file_commands.specs.Doing.{DoesOutcome};
ghost use Rattle.file_commands.specs.Refusals.{said_in};

use crate::refusals::refused_as;
use crate::told::Told;
use lx_ports::Files;
use lx_types::{Bytes, NoMemory};
use refusal_text::Cause;
use std::alloc::Global;

/// Saves the output, and says this text, or that writing failed. All that is said is made before the save: after it no
/// memory is wanted.
pub fn keep<F: Files>(
    alloc: Global,
    files: &mut F,
    name: &str,
    bytes: &[u8],
    text: Bytes,
) -> Result<Told, NoMemory>
    ensures { DoesOutcome (kept name.now bytes.now text) (F.state files.old) (F.state files.new) (said_in result) }
{
    let failed = refused_as(alloc, name, Cause::Unsaved)?;
    match files.save(name, bytes) {
        Ok(()) => Ok(Told::done(text)),
        Err(_) => Ok(failed),
    }
}
