//! Runs of sessions, with gates that hold scripts back: that each script runs on a thread of its own, beside the others, and
//! that whatever order the threads take, as much is done and each page has one fault.
#![tactic(auto)]

mod failure;
mod gate;
mod modules;
mod rows;
mod running;
mod telling;

use failure::Failure;
use std::io::Write;
use std::rt::Runtime;
use std::{env, io};
use telling::tell_all;

/// How often the scripts that share modules are run with each gate, where the words do not say it.
const RUNS: u32 = 20;

// How many runs the words ask for: `RUNS`.
fn read_words<R: Runtime + AllocGlobal>(rt: &R) -> u32 {
    match env::args(rt) {
        Ok(mut words) => words
            .nth(1)
            .and_then(|text| text.parse::<u32>().ok())
            .unwrap_or(RUNS),
        Err(_) => RUNS,
    }
}

fn main(rt: HostRuntime) -> io::Result<()> {
    match tell_all(&rt, rt.alloc(), read_words(&rt)) {
        Ok(text) => io::writer(&rt).write_all(text.as_slice()),
        Err(Failure::Library) => println!(rt; "no library"),
        Err(Failure::Session) => println!(rt; "no session"),
        Err(Failure::NoMemory) => println!(rt; "no memory"),
    }
}
