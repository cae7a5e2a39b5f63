//! Sixteen threads take turns at one lock, each a number of times; then the history is looked through.
#![tactic(auto)]

ghost use Rattle.std.specs.Prelude.{◌≤◌};

mod notes;
mod rounds;

use lx_types::NoMemory;
use notes::Notes;
use rounds::{Looked, take_turns};
use std::alloc::Global;
use std::rt::Runtime;
use std::sync::Wait;
use std::thread::Threads;
use std::{env, io};
use turn_lock::TurnLock;

/// How many turns a thread takes, and how many threads there are, where the words do not say it.
const TURNS: u32 = 1_000;

const PASSES: u32 = 16;

/// The most of each.
const MOST_TURNS: u32 = 1_000_000;

const MOST_PASSES: u32 = 16;

/// What the words ask for: `TURNS PASSES`, each of them optional.
#[derive(Clone, Copy)]
struct Asked {
    turns: u32,
    passes: u32,
}

// What the words ask for, within bounds.
fn read_words<R: Runtime + AllocGlobal>(rt: &R) -> Asked
    ensures turns { result.turns ≤ 1000000 }
    ensures passes { (1 ≤ result.passes) × (result.passes ≤ 16) }
{
    let words = match env::args(rt) {
        Ok(mut words) => {
            let number = |word: Option<String>| word.and_then(|text| text.parse::<u32>().ok());
            let turns = number(words.nth(1));
            (turns, number(words.next()))
        }
        Err(_) => (None, None),
    };
    Asked {
        turns: words.0.unwrap_or(TURNS).min(MOST_TURNS),
        passes: words.1.unwrap_or(PASSES).clamp(1, MOST_PASSES),
    }
}

// The threads take their turns, and the first pass looks through the history.
fn run<R: Threads + Wait + Sync>(rt: &R, alloc: Global, asked: Asked) -> Result<Looked, NoMemory>
    requires turns { asked.turns ≤ 1000000 }
    requires passes { (1 ≤ asked.passes) × (asked.passes ≤ 16) }
{
    let notes = Notes::new(alloc);
    let (lock, mut passes) = TurnLock::make(alloc, notes, asked.passes)?;
    Ok(take_turns(rt, &lock, passes.as_mut_slice(), asked.turns))
}

fn main(rt: HostRuntime) -> io::Result<()> {
    let asked = read_words(&rt);
    let Ok(looked) = run(&rt, rt.alloc(), asked) else {
        return println!(rt; "no memory");
    };
    let Asked { turns, passes } = asked;
    let Looked { notes, disorder } = looked;
    println!(rt; "threads {passes} turns {turns} notes {notes} out of order {disorder}")
}
