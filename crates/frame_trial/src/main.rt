//! Sixteen threads map the same thousand pages of a residence, each in an order of its own. Whoever takes the right to a page
//! fixes and publishes it; everybody else waits for it. Then it is told how many pages were fixed, and how many threads saw
//! the same bytes as the first one.
#![tactic(auto)]

mod mapping;
mod module;
mod shared;

use lx_types::NoMemory;
use mapping::{Seen, map_by_all};
use module::{bases, library};
use page_fix::Rights;
use page_frames::{Frames, Keeper, KeptResidence};
use shared::{SERIAL, Shared};
use std::alloc::Global;
use std::io;
use std::sync::{Arc, Wait};
use std::thread::Threads;

/// How many pages the module has, and how many threads map them.
const PAGES: u32 = 1_000;

const THREADS: u32 = 16;

// The threads map the pages of a module that was written for it.
fn run<R: Threads + Wait + Sync>(rt: &R, alloc: Global) -> Result<Option<Seen>, NoMemory> {
    let Some(library) = library(alloc, PAGES)? else {
        return Ok(None);
    };
    if library.is_empty() {
        return Ok(None);
    }
    let library = Arc::new(alloc, library)?;
    let rights = Rights::make(alloc, SERIAL, &library, 0)?;
    let frames = Frames::make(alloc, SERIAL, library, 0, bases(alloc)?)?;
    let mut kept = KeptResidence::new(Arc::new(alloc, frames)?);
    let held = kept.hold()?;
    Keeper::new().keep(&mut kept);
    let residence = kept.hand_out(held);
    let shared = Shared::of(residence, rights);
    Ok(Some(map_by_all(rt, alloc, &shared, PAGES, THREADS)?))
}

fn main(rt: HostRuntime) -> io::Result<()> {
    match run(&rt, rt.alloc()) {
        Ok(Some(seen)) => {
            let Seen { fixed, alike } = seen;
            println!(rt; "threads {THREADS} pages {PAGES} fixed {fixed} alike {alike}")
        }
        Ok(None) => println!(rt; "no module"),
        Err(NoMemory) => println!(rt; "no memory"),
    }
}
