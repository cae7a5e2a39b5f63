//! Buffers that a process has for pages which it may have to copy.

ghost use Rattle.std.specs.Prelude.{◌≡◌, ◌<◌, ◌≤◌, ◌+◌, OnOk};

use lx_types::{NoMemory, PAGE_LEN, PageBytes};
use std::alloc::Global;
use std::marker::Model;

/// Buffers, each for the bytes of a page. Contracts see how many.
pub struct SparePages {
    buffers: Vec<Box<PageBytes>>,
}

// Dropped by a call, as lists are (`Seq`).
impl Drop for SparePages {
    fn drop(self) {
        let SparePages { buffers } = self;
        drop(buffers);
    }
}

impl Model for SparePages {
    ghost use Rattle.std.specs.Prelude.{ℕ, length};

    ghost Value = { ℕ };

    ghost view = { λ s. length s.buffers.items };
}

impl SparePages {
    /// No buffer.
    pub fn none(alloc: Global) -> SparePages {
        SparePages {
            buffers: Vec::new(alloc),
        }
    }

    /// Finds so many buffers, with those that are there.
    pub fn fill(&mut self, alloc: Global, count: usize) -> Result<(), NoMemory>
        ensures { OnOk result (count ≤ self.new) }
    {
        for _ in self.buffers.len()..count {
            self.buffers.push(Box::new(alloc, [0; PAGE_LEN])?)?;
        }
        Ok(())
    }

    // One of them.
    pub(crate) fn take(&mut self) -> Box<PageBytes>
        requires { 0 < self.old }
        ensures { self.old ≡ self.new + 1 }
    {
        let Some(buffer) = self.buffers.pop() else {
            unreachable!()
        };
        buffer
    }
}
