//! Threads that take turns, and what they leave.

ghost use Rattle.std.specs.Prelude.{◌≡◌, ℕ, ◌+◌, ◌^◌, ◌<◌, ◌≤◌, length, All};
ghost use Rattle.turn_trial.specs.Passes.{Rests};

use crate::notes::{Note, Notes};
use std::sync::Wait;
use std::thread;
use std::thread::Threads;
use turn_lock::{Pass, TurnLock};

/// What the history has: how many notes, and how many of them that do not follow the one before of the same process.
#[derive(Clone, Copy)]
pub struct Looked {
    pub notes: u64,
    pub disorder: u64,
}

// Makes one note in a turn. Where there is no memory, the notes stay as they are.
fn note<R: Wait>(rt: &R, lock: &TurnLock<Notes>, pass: &mut Pass<Notes>, count: u64)
    requires pass { Rests lock.now pass.old }
    requires few { pass.old.me.0.drawn < 2 ^ 32 }
    ensures pass { Rests lock.now pass.new }
    ensures drawn { pass.new.me.0.drawn ≡ pass.old.me.0.drawn + 1 }
{
    let mut log = lock.turn(rt, pass);
    let pid = u64::from(pass.pid());
    let _ = log.notes.push(Note { pid, count });
    lock.give(pass, log);
}

// Makes so many notes, each in a turn of its own.
fn note_all<R: Wait>(rt: &R, lock: &TurnLock<Notes>, pass: &mut Pass<Notes>, turns: u32)
    requires pass { Rests lock.now pass.old }
    requires few { pass.old.me.0.drawn + turns < 2 ^ 32 }
    ensures pass { Rests lock.now pass.new }
    ensures drawn { pass.new.me.0.drawn ≡ pass.old.me.0.drawn + turns }
{
    for count in 0..turns {
        note(rt, lock, pass, u64::from(count));
    }
}

// How many notes do not follow the one before of the same process.
fn disorder(notes: &[Note]) -> u64 {
    let mut next = [0u64; 17];
    let mut wrong = 0u64;
    for &Note { pid, count } in notes {
        match next.get_mut(pid as usize) {
            Some(place) if *place == count => *place = count.saturating_add(1),
            _ => wrong = wrong.saturating_add(1),
        }
    }
    wrong
}

/// Each pass takes so many turns, in a thread of its own where one can be made. Then the first one takes a turn more and
/// looks through the history.
pub fn take_turns<R: Threads + Wait + Sync>(
    rt: &R,
    lock: &TurnLock<Notes>,
    passes: &mut [Pass<Notes>],
    turns: u32,
) -> Looked
    requires some { 0 < length passes.old }
    requires rest { All (λ p. Rests lock.now p × (p.me.0.drawn ≡ 0)) passes.old }
    requires turns { turns ≤ 1000000 }
{
    let threads = passes.len();
    let each = |_: usize, pass: &mut Pass<Notes>|
        requires { Rests lock.now pass.now × (pass.now.me.0.drawn ≡ 0) × (turns ≤ 1000000) }
        ensures { Rests lock.entry.now pass.exit.now × (pass.exit.now.me.0.drawn ≡ turns) }
    {
        note_all(rt, lock, pass, turns);
    };
    thread::for_each_mut(rt, passes, threads, &each);
    let first = &mut passes[0];
    let log = lock.turn(rt, first);
    let notes = log.notes.as_slice();
    let looked = Looked {
        notes: notes.len() as u64,
        disorder: disorder(notes),
    };
    lock.give(first, log);
    looked
}
