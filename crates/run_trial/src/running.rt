//! A session is run over the modules, and counted.

ghost use Rattle.std.specs.Prelude.{IfOk};
ghost use Rattle.session_model.specs.Bounds.{IsSession};

use crate::failure::Failure;
use crate::gate::{Asked, Hold, HoldingGate};
use crate::modules::library;
use check_session::{Checked, check_transcript};
use load_model::{Deed, Entry};
use lx_types::{Fail, PageId};
use mod_graph::Library;
use run_core::{Ran, run_session};
use session_model::{Session, sessions_are_bounded};
use session_text::read_session;
use std::alloc::Global;
use std::sync::{Arc, Wait};
use std::thread::Threads;

/// A run, what its gate was asked, and whether its transcript is judged to be one of its session.
#[derive(Drop)]
pub struct Outcome {
    pub ran: Ran,
    pub asked: Asked,
    pub accepted: bool,
}

// The session that a text says.
fn session_of(alloc: Global, text: &[u8]) -> Result<Session, Failure>
    ensures { IfOk result IsSession }
{
    sessions_are_bounded();
    if u32::try_from(text.len()).is_err() {
        return Err(Failure::Session);
    }
    match read_session(alloc, text) {
        Ok(session) => Ok(session),
        Err(Fail::Said(_)) => Err(Failure::Session),
        Err(Fail::NoMemory) => Err(Failure::NoMemory),
    }
}

// Whether what a run has told is judged to be the transcript of a run of the session that a text says.
fn is_accepted<R: Wait>(
    rt: &R,
    alloc: Global,
    text: &[u8],
    library: &Arc<Library>,
    ran: &Ran,
) -> Result<bool, Failure> {
    let session = session_of(alloc, text)?;
    let checked = check_transcript(rt, alloc, library, &session, ran.text.as_slice())?;
    Ok(matches!(checked.checked, Checked::Accepted(_)))
}

/// Runs the session that a text says, with a gate of these holds, and has its transcript judged.
pub fn run_text<R: Threads + Wait + Sync>(
    rt: &R,
    alloc: Global,
    text: &[u8],
    holds: &[Hold],
) -> Result<Outcome, Failure> {
    let session = session_of(alloc, text)?;
    let library = library(alloc)?;
    let library = Arc::new(alloc, library)?;
    let gate = HoldingGate::new(alloc, holds)?;
    let ran = run_session(rt, alloc, session, library.clone()?, &gate)?;
    let asked = gate.asked();
    let accepted = is_accepted(rt, alloc, text, &library, &ran)?;
    Ok(Outcome {
        ran,
        asked,
        accepted,
    })
}

// The page whose fault an entry is, with its residence's serial number.
fn fault_of(entry: &Entry) -> Option<(u64, PageId)> {
    match entry.deed {
        Deed::Fault { serial, page, .. } => Some((serial, page)),
        _ => None,
    }
}

// Whether both are the fault of one page.
fn is_same_fault(one: &Entry, other: &Entry) -> bool {
    match (fault_of(one), fault_of(other)) {
        (Some((serial, page)), Some((other, again))) => {
            serial == other && page.object == again.object && page.page == again.page
        }
        _ => false,
    }
}

impl Outcome {
    /// How many faults there are.
    pub fn faults(&self) -> usize {
        self.ran
            .closed
            .history()
            .iter()
            .filter(|entry| fault_of(entry).is_some())
            .count()
    }

    /// How many entries are those of commands.
    pub fn commands(&self) -> usize {
        self.ran
            .closed
            .history()
            .len()
            .saturating_sub(self.faults())
    }

    /// How many faults are of a page of a residence that had its fault before.
    pub fn twice(&self) -> usize {
        let history = self.ran.closed.history();
        let mut twice = 0usize;
        for (at, entry) in history.iter().enumerate() {
            let before = history.get(..at).unwrap_or(&[]);
            if before.iter().any(|earlier| is_same_fault(earlier, entry)) {
                twice = twice.saturating_add(1);
            }
        }
        twice
    }

    /// How many commands were answered by a line.
    pub fn lines(&self) -> usize {
        let mut lines = 0usize;
        for script in self.ran.steady.as_slice() {
            lines = lines.saturating_add(script.lines.as_slice().len());
        }
        lines
    }
}
