//! A transcript is read, and judged against a session over a library.

ghost use Rattle.std.specs.Prelude.{◌≡◌, IfOk};
ghost use Rattle.std.specs.Arc.{arc_value};
ghost use Rattle.session_model.specs.Bounds.{IsSession};
ghost use Rattle.transcript_whole.specs.Whole.{told_of, CanBeJudged};
ghost use Rattle.check_model.specs.Places.{places};
ghost use Rattle.check_core.specs.Judged.{IsJudged};
ghost use Rattle.check_session.specs.Checked.{judge_of, IsChecked, IsOnlyCheck};

use crate::telling::TellingPlayer;
use check_core::{JudgedBy, ToldRun, judge};
use check_model::{CheckFault, Counts, Expected, first_wrong_is_one, text_fault_is_one};
use check_play::SessionPlayer;
use failing_inits::failing_pairs;
use lx_types::{Fail, NoMemory};
use mod_graph::Library;
use session_model::Session;
use std::alloc::Global;
use std::sync::{Arc, Wait};
use transcript_whole::{ReadRun, read_transcript};

/// What a check comes to: the text is the transcript of a run of the session, and these are the numbers of its last line; or this
/// is wrong first.
#[derive(Drop)]
pub enum Checked {
    Accepted(Counts),
    Refused(CheckFault),
}

/// What a check comes to; and what the loader with one thread does where the text first tells another entry or reply, for a reader.
#[derive(Drop)]
pub struct CheckedText {
    pub checked: Checked,
    pub expected: Option<Expected>,
}

// What is wrong first with what a transcript tells, or nothing; and what is expected there.
#[derive(Drop)]
struct Judgement {
    fault: Option<CheckFault>,
    expected: Option<Expected>,
}

// Judges what a transcript tells.
fn judged<R: Wait>(
    rt: &R,
    alloc: Global,
    lib: &Arc<Library>,
    session: &Session,
    read: &ReadRun,
) -> Result<Judgement, NoMemory>
    requires session { IsSession session.now }
    requires told { CanBeJudged (told_of read.now) }
    ensures { IfOk result (λ judged. IsJudged (judge_of (arc_value lib.now) session.now) (told_of read.now)
        (places (told_of read.now).run session.now.scripts) judged.fault) }
{
    let failing = failing_pairs(alloc, lib, session)?;
    let scripts = session.scripts.as_slice();
    let processes = scripts.len() as u32;
    let player = SessionPlayer::new(rt, alloc, lib, processes, failing.as_slice())?;
    let history = read.history.as_slice();
    let by = JudgedBy {
        lib,
        scripts,
        most: history.len() as u64,
    };
    let told = ToldRun {
        history,
        steady: read.steady.as_slice(),
        counts: read.counts,
    };
    let mut telling = TellingPlayer {
        alloc,
        player,
        steady: told.steady,
        expected: None,
    };
    let fault = judge(alloc, by, &mut telling, told)?;
    let expected = telling.expected;
    Ok(Judgement { fault, expected })
}

/// Judges a text, by whomever it was written, as the transcript of a run of a session over a library: the first line with which no
/// transcript begins, or the first place at which what it tells is wrong, is refused; what is not refused is accepted. A runtime
/// that may wait is asked for, and nobody is waited for.
pub fn check_transcript<R: Wait>(
    rt: &R,
    alloc: Global,
    lib: &Arc<Library>,
    session: &Session,
    bytes: &[u8],
) -> Result<CheckedText, NoMemory>
    requires { IsSession session.now }
    ensures checked { IfOk result (λ told. IsChecked (judge_of (arc_value lib.now) session.now) bytes.now told.checked) }
    ensures only { IfOk result (λ told. IsOnlyCheck (judge_of (arc_value lib.now) session.now) bytes.now told.checked) }
{
    first_wrong_is_one();
    text_fault_is_one();
    let read = match read_transcript(alloc, bytes, lib) {
        Ok(read) => read,
        Err(Fail::Said(fault)) => {
            return Ok(CheckedText {
                checked: Checked::Refused(fault),
                expected: None,
            });
        }
        Err(Fail::NoMemory) => return Err(NoMemory),
    };
    let Judgement { fault, expected } = judged(rt, alloc, lib, session, &read)?;
    match fault {
        Some(fault) => Ok(CheckedText {
            checked: Checked::Refused(fault),
            expected,
        }),
        None => Ok(CheckedText {
            checked: Checked::Accepted(read.counts),
            expected,
        }),
    }
}
