//! Sessions, with what holds their scripts back.

use crate::gate::{Hold, Step};
use lx_types::NoMemory;
use std::alloc::Global;

/// Two scripts that load one module and end. Each is asked once more after that, so that the gate is told of its end.
pub const TWO: &[u8] =
    b"process 1\nload A\nexit\nquery A @1\nprocess 2\nload A\nexit\nquery A @1\n";

/// Two scripts whose numbers are not those of their processes, and which touch pages in turn. In the second one the
/// initialisation of E fails.
pub const IN_TURN: &[u8] = b"failing E 9\n\
    process 3\nload A\ntouch A 1 0 4097\npeek A 1 0 8\nexit\nquery A @1\n\
    process 9\nload E\nload A\ntouch A 1 4096 4097\nexit\n";

/// Two scripts that load one module, touch one page of it and read there.
pub const TOUCHES: &[u8] = b"process 1\nload A\ntouch A 1 0 4\npeek A 1 4 4\nexit\nquery A @1\n\
    process 2\nload A\ntouch A 1 0 4\npeek A 1 4 4\nexit\nquery A @1\n";

/// How many scripts share the modules.
pub const SCRIPTS: u32 = 16;

/// What each of them does. Seven of these commands have an entry, five a line.
const SHARING: &[u8] =
    b"load A\nload C\ntouch A 1 0 16384\ntouch A 2 0 8192\ntouch A 3 0 4096\ntouch C 1 0 16384\n\
    write A 2 8 2A\nshared A 2 0 16\npeek A 1 0 8\nfree C\nfree A\nexit\n";

/// The place of the first command by which one of them gives up a module.
const FIRST_FREE: u32 = 10;

fn hold(held: (u32, u32), until: (u32, u32)) -> Hold {
    Hold {
        held: Step {
            pid: held.0,
            index: held.1,
        },
        until: Step {
            pid: until.0,
            index: until.1,
        },
    }
}

/// The first script begins once the second one is at its second command. That waits for the first one in its turn, so that
/// one order is left.
pub fn second_first() -> [Hold; 3] {
    [
        hold((1, 1), (2, 2)),
        hold((2, 2), (1, 2)),
        hold((1, 2), (2, 3)),
    ]
}

/// The other way round.
pub fn first_first() -> [Hold; 3] {
    [
        hold((2, 1), (1, 2)),
        hold((1, 2), (2, 2)),
        hold((2, 2), (1, 3)),
    ]
}

/// Leaves one order of the scripts that touch pages in turn.
pub fn in_turn() -> [Hold; 6] {
    [
        hold((3, 1), (9, 2)),
        hold((9, 2), (3, 2)),
        hold((3, 2), (9, 3)),
        hold((9, 3), (3, 3)),
        hold((3, 3), (9, 4)),
        hold((9, 4), (3, 5)),
    ]
}

/// The first script touches the page once both have loaded the module, and the second one after it. That one ends first.
pub fn first_touches_first() -> [Hold; 4] {
    [
        hold((2, 1), (1, 2)),
        hold((1, 2), (2, 2)),
        hold((2, 2), (1, 3)),
        hold((1, 4), (2, 5)),
    ]
}

/// The second script touches the page before the first one, which loaded the module first, and ends after it.
pub fn second_touches_first() -> [Hold; 3] {
    [
        hold((2, 1), (1, 2)),
        hold((1, 2), (2, 3)),
        hold((2, 4), (1, 5)),
    ]
}

/// The session of the scripts that share the modules.
pub fn sharing(alloc: Global) -> Result<Vec<u8>, NoMemory> {
    let mut text = Vec::new(alloc);
    for pid in 1..SCRIPTS + 1 {
        let head = format!(in alloc; "process {pid}\n")?;
        text.extend_from_slice(head.as_bytes())?;
        text.extend_from_slice(SHARING)?;
    }
    Ok(text)
}

// Holds a script at a command until all scripts have come to it.
fn push_holds(holds: &mut Vec<Hold>, pid: u32, index: u32) -> Result<(), NoMemory> {
    for other in 1..SCRIPTS + 1 {
        holds.push(hold((pid, index), (other, index)))?;
    }
    Ok(())
}

// Holds each script at a command until all scripts have come to it.
fn all_at(alloc: Global, index: u32) -> Result<Vec<Hold>, NoMemory> {
    let mut holds = Vec::new(alloc);
    for pid in 1..SCRIPTS + 1 {
        push_holds(&mut holds, pid, index)?;
    }
    Ok(holds)
}

/// No script begins before all are at their first command: each has a thread of its own.
pub fn all_begin(alloc: Global) -> Result<Vec<Hold>, NoMemory> {
    all_at(alloc, 1)
}

/// No script gives up a module before all have done what they do with them: each module is loaded once.
pub fn none_leaves(alloc: Global) -> Result<Vec<Hold>, NoMemory> {
    all_at(alloc, FIRST_FREE)
}
