//! What threads sleep on while they wait for something that another thread does.
#![tactic(auto)]

use std::sync::Wait;
use std::sync::atomic::Ordering::SeqCst;
use std::sync::atomic::{AtomicBool, AtomicU64};

/// A bell that threads sleep on until it rings. No fact rests on it: a thread that was woken looks whether there is what it
/// waits for.
#[derive(Drop)]
pub struct Bell {
    rung: AtomicU64,
    awaited: AtomicBool,
}

/// How often a bell had been rung when it was heard, modulo 2^32.
#[derive(Clone, Copy)]
pub struct Heard(u32);

impl Bell {
    /// A bell that was not rung yet.
    pub fn new() -> Bell {
        Bell {
            rung: AtomicU64::new(0),
            awaited: AtomicBool::new(false),
        }
    }

    /// What the bell has been rung so far, for a thread that is about to sleep: from here on the next ring is one. Taken before
    /// the look at what a thread waits for, it lets no ring between that look and the sleep be missed: who makes what is waited
    /// for and rings after it finds the bell awaited, or another rang meanwhile, which is no longer what was heard. So what was
    /// heard is taken first, and the bell is awaited then.
    pub fn heard(&self) -> Heard {
        let heard = Heard((self.rung.load(SeqCst) % (1 << 32)) as u32);
        self.awaited.store(true, SeqCst);
        heard
    }

    /// Sleeps until the bell is rung, if it was not since `heard`.
    pub fn sleep<R: Wait>(&self, rt: &R, heard: Heard) {
        self.rung.park(rt, heard.0);
    }

    // Whether a thread has heard the bell since it rang last, which is one ring's to answer.
    fn is_awaited(&self) -> bool {
        self.awaited.load(SeqCst) && self.awaited.swap(false, SeqCst)
    }

    /// Wakes all who sleep. Where nobody has heard the bell since it rang last, nobody sleeps, and it does not ring.
    pub fn ring(&self) {
        if self.is_awaited() {
            self.rung.fetch_add(1, SeqCst);
            self.rung.wake_all();
        }
    }

    /// Wakes one of those who sleep, unless nobody does. Who is woken hears the bell before it looks, and rings once it has had
    /// what it waited for, so that the others are woken one after the other.
    pub fn ring_for_one(&self) {
        if self.is_awaited() {
            self.rung.fetch_add(1, SeqCst);
            self.rung.wake_one();
        }
    }
}
