//! Numbers that several lists hold at the same time.

ghost use Rattle.std.specs.Prelude.{◌≡◌, IfOk};

use crate::{NoMemory, Numbers, Seq};
use std::alloc::Global;
use std::marker::Model;
use std::sync::Arc;

/// Numbers below 2^32 that stand in memory once, however many hold them. Contracts see them as a list.
pub struct SharedNumbers {
    list: Arc<Numbers>,
}

impl Model for SharedNumbers {
    ghost use Rattle.std.specs.Prelude.{List, ℕ};
    ghost use Rattle.std.specs.Arc.{arc_value};

    ghost Value = { List ℕ };

    ghost view = { λ s. arc_value s.list };
}

// Dropped by a call, as lists are (`Seq`).
impl Drop for SharedNumbers {
    fn drop(self) {
        let SharedNumbers { list } = self;
        drop(list);
    }
}

impl SharedNumbers {
    /// The numbers of `vec`, in their order, with one hold on them.
    pub fn make(alloc: Global, vec: Vec<u32>) -> Result<SharedNumbers, NoMemory>
        ensures { IfOk result (λ numbers. numbers ≡ vec.items) }
    {
        Ok(SharedNumbers {
            list: Arc::new(alloc, Seq::from_vec(vec))?,
        })
    }

    /// One hold more on the same numbers.
    pub fn hold(&self) -> Result<SharedNumbers, NoMemory>
        ensures { IfOk result (λ numbers. numbers ≡ self.now) }
    {
        Ok(SharedNumbers {
            list: Arc::try_clone(&self.list)?,
        })
    }

    /// The numbers as a slice.
    pub fn as_slice(&self) -> &[u32]
        ensures { result.now ≡ self.now }
    {
        self.list.as_slice()
    }
}
