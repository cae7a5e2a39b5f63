//! Steady lines.

ghost use Rattle.std.specs.Prelude.{◌≡◌, IfOk};
ghost use Rattle.check_model.specs.Told.{IsLine};
ghost use Rattle.transcript_read.specs.Words.{left_of};
ghost use Rattle.transcript_read.specs.Taken.{Tells};
ghost use Rattle.transcript_read.specs.Rows.{steady_row};

use crate::commands::command;
use crate::cursor::Words;
use crate::replies::reply;
use lx_types::NoMemory;
use session_model::Line;
use std::alloc::Global;

/// A command that was answered without an entry.
pub(crate) fn steady(alloc: Global, words: Words<'_>) -> Result<Option<Line>, NoMemory>
    ensures { IfOk result (λ told. Tells steady_row IsLine told (left_of words.entry)) }
{
    let mut words = words;
    words.known(b"");
    words.known(b"");
    words.known(b"at");
    let front = words.count();
    let Some(command) = command(alloc, &mut words)? else {
        return Ok(None);
    };
    let Some(reply) = reply(alloc, words, &command)? else {
        return Ok(None);
    };
    Ok(Some(Line {
        front,
        command,
        reply,
    }))
}
