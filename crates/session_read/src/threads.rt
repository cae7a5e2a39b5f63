//! A long session, of whose scripts several threads read a part each.

ghost use Rattle.std.specs.Prelude.{◌≡◌, ◌<◌, ◌≤◌, ◌^◌, [], length, take, IfSome, Some};
ghost use Rattle.std.specs.Bool.{OnTrue};
ghost use Rattle.std.specs.Thread.{IsSync};
ghost use Rattle.lx_types.specs.Answers.{Answers};
ghost use Rattle.session_model.specs.Kept.{AreLines};
ghost use Rattle.session_model.specs.Sessions.{Ses, SesFault};
ghost use Rattle.session_read.specs.Joining.{last_pid, with_scripts, ComesAfter, GoesOn};

use crate::draft::rises;
use crate::processors::halvings;
use crate::reading::read_session;
use lx_types::{Fail, Seq};
use memchr::memchr;
use session_model::{KeptLines, LineKind, Script, Session, SessionRefusal};
use std::alloc::Global;
use std::thread;
use std::thread::Threads;

/// Fewer bytes are read sooner than threads begin.
const FEW_BYTES: usize = 32_768;

// Where a line stands that begins a script: the first one after the line in which `from` lies.
fn script_after(bytes: &[u8], from: usize) -> Option<usize>
    requires { from ≤ length bytes.now }
    ensures within { IfSome result (λ at. at ≤ length bytes.now) }
    ensures whole { IfSome result (λ at. AreLines (take at bytes.now)) }
{
    let mut at = from;
    while let Some(end) = memchr(b'\n', &bytes[at..]) {
        at += end + 1;
        if bytes[at..].starts_with(b"process") {
            return Some(at);
        }
    }
    None
}

// Where a script begins near the middle of bytes that are to be halved so often. Scripts are about as long as each other, and the
// lines in front of them are few.
fn middle_of(halvings: u32, bytes: &[u8]) -> Option<usize>
    ensures within { IfSome result (λ at. at ≤ length bytes.now) }
    ensures whole { IfSome result (λ at. AreLines (take at bytes.now)) }
    ensures more { IfSome result (λ _. 0 < halvings) }
{
    if halvings == 0 {
        return None;
    }
    script_after(bytes, bytes.len() / 2 - bytes.len() / 32)
}

// Whether scripts go on with the numbers of those before them.
fn goes_on(front: &[Script], back: &[Script]) -> bool
    ensures { OnTrue result (GoesOn (last_pid front.now) back.now) }
{
    match back.first() {
        Some(next) => rises(front.last().map(|script| script.pid), next.pid),
        None => true,
    }
}

// Whether there is no line. Lines without a text say nothing.
#[tactic(auto, using(crate::proofs::Joining::said_none))]
fn is_none<T: LineKind>(lines: &KeptLines<T>) -> bool
    ensures { OnTrue result (lines.now ≡ []) }
{
    lines.text().is_empty()
}

// Whether the second session has scripts alone that go on with the numbers of the first.
fn comes_after(front: &Session, back: &Session) -> bool
    ensures { OnTrue result (ComesAfter front.now back.now) }
{
    is_none(&back.modules)
        && is_none(&back.failing)
        && goes_on(front.scripts.as_slice(), back.scripts.as_slice())
}

// The sessions of two parts, one after the other, where the second comes after the first and there is memory for both.
fn joined(front: Session, back: Session) -> Option<Session>
    ensures { IfSome result (λ all. ComesAfter front back × (all ≡ with_scripts front back.scripts)) }
{
    if !comes_after(&front, &back) {
        return None;
    }
    let mut scripts = front.scripts.into_vec();
    let mut later = back.scripts.into_vec();
    scripts.append(&mut later).ok()?;
    Some(Session {
        modules: front.modules,
        failing: front.failing,
        scripts: Seq::from_vec(scripts),
    })
}

// The session of bytes that are halved so often. There is none where a part is no session by itself or does not come after the one
// before it, and where memory is wanting.
fn read_in_parts<R: Threads + Sync>(
    rt: &R,
    alloc: Global,
    halvings: u32,
    bytes: &[u8],
) -> Option<Session>
    requires { length bytes.now < 2 ^ 32 }
    ensures { IfSome result (λ session. Ses bytes.now session) }
{
    let Some(at) = middle_of(halvings, bytes) else {
        return read_session(alloc, bytes).ok();
    };
    let left = halvings - 1;
    let (front, back) = bytes.split_at(at);
    let (front, back) = thread::join(
        rt,
        move || -> Option<Session>
            requires { IsSync R.row × (length front.now < 2 ^ 32) }
            ensures { IfSome result (λ session. Ses front.entry.now session) }
        { read_in_parts(rt, alloc, left, front) },
        move || -> Option<Session>
            requires { IsSync R.row × (length back.now < 2 ^ 32) }
            ensures { IfSome result (λ session. Ses back.entry.now session) }
        { read_in_parts(rt, alloc, left, back) },
    );
    joined(front?, back?)
}

/// Reads a session, as `read_session` does, in less time where it is long: two or four threads, as there are processors, read a
/// part of the scripts each. What is no session is read once more, by one thread, which finds the first line that is wrong.
pub fn read_session_by_threads<R: Threads + Sync>(
    rt: &R,
    alloc: Global,
    bytes: &[u8],
) -> Result<Session, Fail<SessionRefusal>>
    requires { length bytes.now < 2 ^ 32 }
    ensures { Answers result (λ session. Ses bytes.now session) (λ why. SesFault bytes.now ≡ Some why) }
{
    if bytes.len() >= FEW_BYTES {
        if let Some(session) = read_in_parts(rt, alloc, halvings(rt), bytes) {
            return Ok(session);
        }
    }
    read_session(alloc, bytes)
}
