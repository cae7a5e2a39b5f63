//! The addresses that resident libraries take.

ghost use Rattle.std.specs.Prelude.{◌≡◌, ◌∷◌, ◌++◌, ◌+◌, ◌≤◌, [], MatchResult};
ghost use Rattle.lx_types.specs.Addresses.{room};
ghost use Rattle.lx_types.specs.declared.limits.TheConstants.{SHARED_FROM, SHARED_END};
ghost use Rattle.base_pick.specs.Places.{range_at};

use crate::search::range_at;
use lx_types::NoMemory;
use std::alloc::Global;
use std::marker::Model;

/// The addresses from one up to before another.
#[derive(Clone, Copy)]
pub struct AddressRange {
    pub from: u32,
    pub to: u32,
}

/// The ranges of the shared arena that are taken.
#[derive(Drop)]
pub struct Occupied {
    ranges: Vec<AddressRange>,
}

impl Model for Occupied {
    ghost use Rattle.std.specs.Prelude.{List};
    ghost use Rattle.base_pick.specs.declared.occupied.AddressRange.{AddressRange};

    ghost Value = { List AddressRange };

    ghost view = { λ o. o.ranges.items };
}

impl Occupied {
    /// Nothing is taken. It takes no memory.
    pub fn none(alloc: Global) -> Occupied
        ensures { result ≡ [] }
    {
        Occupied {
            ranges: Vec::new(alloc),
        }
    }

    /// Takes the room of an object of `size` bytes at `start`: at least one byte, in whole units of
    /// 65,536. Where it finds no memory nothing changes.
    pub fn add(&mut self, start: u32, size: u32) -> Result<(), NoMemory>
        requires shared { SHARED_FROM ≤ start }
        requires within { start + room size ≤ SHARED_END }
        ensures { MatchResult result (λ _. self.new ≡ self.old ++ range_at start size ∷ []) (λ _. self.new ≡ self.old) }
    {
        Ok(self.ranges.push(range_at(start, size))?)
    }

    /// The ranges, in the order in which they were taken.
    pub fn ranges(&self) -> &[AddressRange]
        ensures { result.now ≡ self.now }
    {
        self.ranges.as_slice()
    }
}
