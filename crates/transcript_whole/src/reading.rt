//! A transcript, line by line.

ghost use Rattle.std.specs.Prelude.{◌≡◌, ◌↔◌, [], List, IfOk, IsTrue};
ghost use Rattle.lx_types.specs.Answers.{Answers};
ghost use Rattle.transcript_laws.specs.TellsOne.{HasNames};
ghost use Rattle.transcript_whole.specs.Readings.{IsReadingOf, TakesLine, TakesText};
ghost use Rattle.transcript_whole.specs.declared.following.At.TheVariants as at;
ghost use Rattle.transcript_whole.specs.Readings.{AreAll, IsTextFault};

use crate::cutting::first_line;
use crate::draft::Draft;
use crate::following::{At, follow};
use check_model::{CheckFault, CheckKind};
use lx_types::{Fail, NoMemory};
use std::alloc::Global;
use transcript_lines::TranscriptLine;
use transcript_read::{ModuleNames, read_line};

/// The lines so far.
#[derive(Drop)]
pub(crate) struct Reading {
    pub at: At,
    pub draft: Draft,
}

impl Reading {
    /// No line.
    pub fn new(alloc: Global) -> Reading
        ensures { IsReadingOf [] result }
    {
        Reading {
            at: At::Start,
            draft: Draft::new(alloc),
        }
    }

    // The lines with one more, where it may stand there.
    fn with_line(self, alloc: Global, line: TranscriptLine) -> Result<Option<Reading>, NoMemory>
        ensures { IfOk result (λ taken. TakesLine self line taken) }
    {
        let Some(at) = follow(self.at, self.draft.history.as_slice(), &line) else {
            return Ok(None);
        };
        let draft = self.draft.with_line(alloc, line)?;
        Ok(Some(Reading { at, draft }))
    }

    /// The lines with that of a text, where it is one, and may stand there.
    pub fn with_text(
        self,
        alloc: Global,
        names: &ModuleNames<'_>,
        text: &[u8],
    ) -> Result<Option<Reading>, NoMemory>
        requires { HasNames names.now }
        ensures { IfOk result (λ taken. TakesText names.now self text.now taken) }
    {
        let Some(line) = read_line(alloc, names, text)? else {
            return Ok(None);
        };
        self.with_line(alloc, line)
    }

    // Whether the last line was read.
    fn is_ended(&self) -> bool
        ensures { IsTrue result ↔ (self.now.at ≡ at.End) }
    {
        matches!(self.at, At::End)
    }
}

// No transcript begins with the lines up to this one.
fn text_fault(line: u64) -> CheckFault
    ensures { result ≡ record { line = line; kind = kinds.Text } }
{
    CheckFault {
        line,
        kind: CheckKind::Text,
    }
}

ghost use Rattle.check_model.specs.declared.kinds.CheckKind.TheVariants as kinds;

/// The lines of a whole transcript, in one pass over its bytes; or the first with which no transcript begins.
pub(crate) fn read_lines(
    alloc: Global,
    names: &ModuleNames<'_>,
    bytes: &[u8],
) -> Result<Reading, Fail<CheckFault>>
    requires { HasNames names.now }
    ensures { Answers result (AreAll names.now bytes.now) (IsTextFault names.now bytes.now) }
{
    let mut reading = Reading::new(alloc);
    let mut left = bytes;
    let mut number = 1u64;
    while let Some(cut) = first_line(left) {
        reading = match reading.with_text(alloc, names, cut.line)? {
            Some(reading) => reading,
            None => return Err(Fail::Said(text_fault(number))),
        };
        left = cut.after;
        number += 1;
    }
    if left.is_empty() && reading.is_ended() {
        Ok(reading)
    } else {
        Err(Fail::Said(text_fault(number)))
    }
}
