//! Into how many parts a long text is cut, each for a thread of its own.

use std::thread;
use std::thread::Threads;

/// Four parts at most: beyond that, cutting and joining cost more than a thread saves.
const MOST_HALVINGS: u32 = 2;

/// How often a long text is halved, so that each processor has a part. It is not at all where there is one processor, or where it
/// is not known how many there are.
pub fn halvings<R: Threads>(rt: &R) -> u32 {
    match thread::available_parallelism(rt) {
        Ok(count) => count.get().ilog2().min(MOST_HALVINGS),
        Err(_) => 0,
    }
}
