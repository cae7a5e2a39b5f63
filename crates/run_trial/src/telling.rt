//! What is told of the runs: transcripts where the gate leaves one order, and counts where it does not.

use crate::failure::Failure;
use crate::gate::{Asked, Hold};
use crate::rows::{
    IN_TURN, TOUCHES, TWO, all_begin, first_first, first_touches_first, in_turn, none_leaves,
    second_first, second_touches_first, sharing,
};
use crate::running::{Outcome, run_text};
use std::alloc::Global;
use std::sync::Wait;
use std::thread::Threads;

/// How many faults the scripts that share modules make at least, which is one a page that they share; and at most, where the
/// modules are loaded anew for each of them.
const FEWEST: usize = 10;

const MOST: usize = 160;

/// A session, and the holds that leave one order of its commands.
#[derive(Clone, Copy)]
struct Ordered<'a> {
    name: &'a str,
    session: &'a [u8],
    holds: &'a [Hold],
}

/// Runs of the scripts that share modules: with which gate, how many, and how many faults each may have at most.
#[derive(Clone, Copy)]
struct Shared<'a> {
    name: &'a str,
    holds: &'a [Hold],
    runs: u32,
    most: usize,
}

/// What is counted of a run, whatever order its threads took.
#[derive(Clone, Copy, PartialEq, Eq)]
struct Counts {
    commands: usize,
    lines: usize,
    twice: usize,
    asked: Asked,
    within: bool,
    accepted: bool,
}

impl Counts {
    fn of(outcome: &Outcome, most: usize) -> Counts {
        let faults = outcome.faults();
        Counts {
            commands: outcome.commands(),
            lines: outcome.lines(),
            twice: outcome.twice(),
            asked: outcome.asked,
            within: FEWEST <= faults && faults <= most,
            accepted: outcome.accepted,
        }
    }
}

// What a gate was asked, and how the transcript was judged.
fn told(alloc: Global, asked: Asked, accepted: bool) -> Result<String, Failure> {
    let Asked {
        commands,
        out_of_order,
        given_up,
    } = asked;
    Ok(format!(in alloc;
        "asked {commands} out of order {out_of_order} given up {given_up} accepted {accepted}"
    )?)
}

// The run of a session in one order, and its transcript.
fn tell_ordered<R: Threads + Wait + Sync>(
    rt: &R,
    alloc: Global,
    row: Ordered,
    text: &mut Vec<u8>,
) -> Result<(), Failure> {
    let outcome = run_text(rt, alloc, row.session, row.holds)?;
    let name = row.name;
    let asked = told(alloc, outcome.asked, outcome.accepted)?;
    let head = format!(in alloc; "{name}: {asked}\n")?;
    text.extend_from_slice(head.as_bytes())?;
    text.extend_from_slice(outcome.ran.text.as_slice())?;
    Ok(())
}

// How many of the further runs have the same counts. A run that gave up a hold is the last: each of them would take its time.
fn count_alike<R: Threads + Wait + Sync>(
    rt: &R,
    alloc: Global,
    session: &[u8],
    row: Shared,
    first: Counts,
) -> Result<u32, Failure> {
    let mut alike = 0u32;
    for _ in 1..row.runs {
        let counts = Counts::of(&run_text(rt, alloc, session, row.holds)?, row.most);
        if counts == first {
            alike = alike.saturating_add(1);
        }
        if counts.asked.given_up > 0 {
            break;
        }
    }
    Ok(alike)
}

// The runs of the scripts that share modules, with a gate.
fn tell_shared<R: Threads + Wait + Sync>(
    rt: &R,
    alloc: Global,
    session: &[u8],
    row: Shared,
    text: &mut Vec<u8>,
) -> Result<(), Failure> {
    let first = Counts::of(&run_text(rt, alloc, session, row.holds)?, row.most);
    let alike = count_alike(rt, alloc, session, row, first)?.saturating_add(1);
    let Counts {
        commands,
        lines,
        twice,
        asked,
        within,
        accepted,
    } = first;
    let asked = told(alloc, asked, accepted)?;
    let Shared {
        name,
        runs,
        most,
        ..
    } = row;
    let head = format!(in alloc; "{name}: runs {runs} alike {alike}\n")?;
    let counts = format!(in alloc;
        "  commands {commands} lines {lines} twice {twice}, faults from {FEWEST} to {most}: {within}, {asked}\n"
    )?;
    text.extend_from_slice(head.as_bytes())?;
    text.extend_from_slice(counts.as_bytes())?;
    Ok(())
}

// All runs of the scripts that share modules.
fn tell_all_shared<R: Threads + Wait + Sync>(
    rt: &R,
    alloc: Global,
    runs: u32,
    text: &mut Vec<u8>,
) -> Result<(), Failure> {
    let session = sharing(alloc)?;
    let begin = all_begin(alloc)?;
    let leave = none_leaves(alloc)?;
    let open = Shared {
        name: "open gate",
        holds: &[],
        runs,
        most: MOST,
    };
    let together = Shared {
        name: "all begin together",
        holds: begin.as_slice(),
        runs,
        most: MOST,
    };
    let loaded_once = Shared {
        name: "none leaves early",
        holds: leave.as_slice(),
        runs,
        most: FEWEST,
    };
    for row in [open, together, loaded_once] {
        tell_shared(rt, alloc, session.as_slice(), row, text)?;
    }
    Ok(())
}

// The sessions that run in one order.
fn tell_all_ordered<R: Threads + Wait + Sync>(
    rt: &R,
    alloc: Global,
    text: &mut Vec<u8>,
) -> Result<(), Failure> {
    let no_scripts = Ordered {
        name: "no scripts",
        session: b"",
        holds: &[],
    };
    let second_first = Ordered {
        name: "second first",
        session: TWO,
        holds: &second_first(),
    };
    let first_first = Ordered {
        name: "first first",
        session: TWO,
        holds: &first_first(),
    };
    let in_turn = Ordered {
        name: "in turn",
        session: IN_TURN,
        holds: &in_turn(),
    };
    let first_touches = Ordered {
        name: "first touches first",
        session: TOUCHES,
        holds: &first_touches_first(),
    };
    let second_touches = Ordered {
        name: "second touches first",
        session: TOUCHES,
        holds: &second_touches_first(),
    };
    for row in [
        no_scripts,
        second_first,
        first_first,
        in_turn,
        first_touches,
        second_touches,
    ] {
        tell_ordered(rt, alloc, row, text)?;
    }
    Ok(())
}

/// All that is told; the scripts that share modules are run so often with each gate.
pub fn tell_all<R: Threads + Wait + Sync>(
    rt: &R,
    alloc: Global,
    runs: u32,
) -> Result<Vec<u8>, Failure> {
    let mut text = Vec::new(alloc);
    tell_all_ordered(rt, alloc, &mut text)?;
    tell_all_shared(rt, alloc, runs, &mut text)?;
    Ok(text)
}
