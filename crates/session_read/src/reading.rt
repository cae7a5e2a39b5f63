//! A session, line by line.

ghost use Rattle.std.specs.Prelude.{◌≡◌, ◌<◌, ◌^◌, length, Some};
ghost use Rattle.lx_types.specs.Answers.{Answers};
ghost use Rattle.session_model.specs.Sessions.{Ses, SesFault};
ghost use Rattle.session_read.specs.Drafts.{TakesLine, fail_at};

use crate::draft::Draft;
use crate::lines::first_line;
use crate::statements::read_line;
use lx_types::Fail;
use session_model::{Session, SessionKind, SessionRefusal};
use std::alloc::Global;

// The draft after a line more.
fn with_line(alloc: Global, draft: Draft, line: &[u8]) -> Result<Draft, Fail<SessionKind>>
    ensures { TakesLine draft line.now result }
{
    match read_line(alloc, line)? {
        Some(said) => draft.with(alloc, line, said),
        None => Ok(draft),
    }
}

// A fault has the number of its line.
fn at_line(line: u32, fail: Fail<SessionKind>) -> Fail<SessionRefusal>
    ensures { result ≡ fail_at line fail }
{
    match fail {
        Fail::Said(kind) => Fail::Said(SessionRefusal { line, kind }),
        Fail::NoMemory => Fail::NoMemory,
    }
}

/// Reads a session, in one pass over its bytes. It is refused by the first line that is wrong; lines count
/// from 1. Words are copied once their line is known to be right.
pub fn read_session(alloc: Global, bytes: &[u8]) -> Result<Session, Fail<SessionRefusal>>
    requires { length bytes.now < 2 ^ 32 }
    ensures { Answers result (λ session. Ses bytes.now session) (λ why. SesFault bytes.now ≡ Some why) }
{
    let mut draft = Draft::new(alloc);
    let mut left = bytes;
    let mut number = 0u32;
    while !left.is_empty() {
        let cut = first_line(left);
        number += 1;
        draft = match with_line(alloc, draft, cut.line) {
            Ok(draft) => draft,
            Err(fail) => return Err(at_line(number, fail)),
        };
        left = cut.after;
    }
    Ok(draft.session()?)
}
