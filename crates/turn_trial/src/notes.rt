//! Notes that threads make in turn.

ghost use Rattle.std.specs.Prelude.{◌≡◌, [], Option};

use std::alloc::{AllocError, Global};
use turn_lock::Chronicle;

/// A note: the number of the process that made it, and how many it had made before.
#[derive(Clone, Copy)]
pub struct Note {
    pub pid: u64,
    pub count: u64,
}

/// Notes, the oldest first.
#[derive(Drop)]
pub struct Notes {
    pub notes: Vec<Note>,
}

impl Notes {
    /// No notes.
    pub fn new(alloc: Global) -> Notes
        ensures { result.notes.items ≡ [] }
    {
        Notes {
            notes: Vec::new(alloc),
        }
    }
}

impl Chronicle for Notes {
    type Item = Note;

    type Subject = u64;

    ghost history = { λ l. l.notes.items };

    ghost by = { λ n. n.pid };

    ghost subject = { λ l. 0 };

    fn count(&self) -> u64 {
        self.notes.len() as u64
    }
}
