//! A gate that holds scripts back until others have come so far.

use lx_ports::Gate;
use lx_types::NoMemory;
use std::alloc::Global;
use std::sync::atomic::{AtomicU32, Ordering};
use std::thread;

/// How often a script that is held back looks whether it may go on. Then it goes on, and the gate of its run is open from there
/// on: so a run that is wrong ends, and is told from a right one. Looks are counted and not seconds, since a script whose machine
/// has other work looks less often too; a right run takes a small part of them.
const LOOKS: u32 = 1 << 24;

/// The most scripts, by whose numbers steps are noted.
const SCRIPTS: u32 = 16;

/// A command of a script, by the script's number and the command's place, from 1.
#[derive(Clone, Copy)]
pub struct Step {
    pub pid: u32,
    pub index: u32,
}

/// A command that may begin once another script has come to a command of its own.
#[derive(Clone, Copy)]
pub struct Hold {
    pub held: Step,
    pub until: Step,
}

/// What a gate was asked: how many commands, how many of them in another order than that of their script, and how often it gave
/// up a hold.
#[derive(Clone, Copy, PartialEq, Eq)]
pub struct Asked {
    pub commands: u32,
    pub out_of_order: u32,
    pub given_up: u32,
}

/// A gate with these holds. It notes how far each script has come.
#[derive(Drop)]
pub struct HoldingGate<'a> {
    holds: &'a [Hold],
    reached: Vec<AtomicU32>,
    commands: AtomicU32,
    out_of_order: AtomicU32,
    given_up: AtomicU32,
}

impl<'a> HoldingGate<'a> {
    /// A gate that was not asked yet.
    pub fn new(alloc: Global, holds: &'a [Hold]) -> Result<HoldingGate<'a>, NoMemory> {
        let mut reached = Vec::new(alloc);
        for _ in 0..SCRIPTS + 1 {
            reached.push(AtomicU32::new(0))?;
        }
        Ok(HoldingGate {
            holds,
            reached,
            commands: AtomicU32::new(0),
            out_of_order: AtomicU32::new(0),
            given_up: AtomicU32::new(0),
        })
    }

    /// What it was asked so far.
    pub fn asked(&self) -> Asked {
        Asked {
            commands: self.commands.load(Ordering::SeqCst),
            out_of_order: self.out_of_order.load(Ordering::SeqCst),
            given_up: self.given_up.load(Ordering::SeqCst),
        }
    }

    // Notes that a script has come to a command, which is to follow the one that it came to before.
    fn note(&self, step: Step) {
        self.commands.fetch_add(1, Ordering::SeqCst);
        let before = match self.reached.get(step.pid as usize) {
            Some(reached) => reached.swap(step.index, Ordering::SeqCst),
            None => step.index,
        };
        if before.wrapping_add(1) != step.index {
            self.out_of_order.fetch_add(1, Ordering::SeqCst);
        }
    }

    // Whether a script has come to a command.
    fn has_come(&self, step: Step) -> bool {
        match self.reached.get(step.pid as usize) {
            Some(reached) => reached.load(Ordering::SeqCst) >= step.index,
            None => false,
        }
    }

    // Looks until a script has come to a command, or the gate is open.
    fn wait_for(&self, step: Step) {
        for _ in 0..LOOKS {
            if self.has_come(step) || self.given_up.load(Ordering::SeqCst) > 0 {
                return;
            }
            thread::yield_now();
        }
        self.given_up.fetch_add(1, Ordering::SeqCst);
    }
}

impl Gate for HoldingGate<'_> {
    fn before(&self, pid: u32, index: u32) {
        self.note(Step { pid, index });
        for hold in self.holds {
            if hold.held.pid == pid && hold.held.index == index {
                self.wait_for(hold.until);
            }
        }
    }
}
