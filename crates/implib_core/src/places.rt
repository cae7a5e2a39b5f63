//! Where the names of each ordinal stand.

ghost use Rattle.std.specs.Prelude.{◌≡◌, ◌++◌, ◌==◌, ℕ, [], false, IfOk};
ghost use Rattle.implib_core.specs.NamePlaces.{places_in, places_from, one_place};

use indexmap::IndexMap;
use lx_types::{Name, NoMemory};
use std::alloc::Global;

/// The places of names, from 0, by the ordinals that the names have.
#[derive(Drop)]
pub struct Places {
    by_ordinal: IndexMap<u32, Vec<usize>>,
}

impl Places {
    /// No places. It takes no memory.
    fn new(alloc: Global) -> Places
        ensures { (ordinal : ℕ) → places_in result ordinal ≡ [] }
    {
        Places {
            by_ordinal: IndexMap::new(alloc),
        }
    }

    /// The places of the names that have an ordinal, in their order.
    pub fn with(&self, ordinal: u32) -> &[usize]
        ensures { result.now ≡ places_in self.now ordinal }
    {
        match self.by_ordinal.get(&ordinal) {
            Some(places) => places.as_slice(),
            None => &[],
        }
    }

    // Takes out the places of an ordinal.
    fn take(&mut self, alloc: Global, ordinal: u32) -> Vec<usize>
        ensures taken { result.items ≡ places_in self.old ordinal }
        ensures others { (k : ℕ) → (ordinal == k) ≡ false → places_in self.new k ≡ places_in self.old k }
    {
        match self.by_ordinal.swap_remove(&ordinal) {
            Some(places) => places,
            None => Vec::new(alloc),
        }
    }

    // Puts the places of an ordinal.
    fn put(&mut self, ordinal: u32, places: Vec<usize>) -> Result<(), NoMemory>
        ensures put { IfOk result (λ _. places_in self.new ordinal ≡ places.items) }
        ensures others { IfOk result (λ _. (k : ℕ) → (ordinal == k) ≡ false → places_in self.new k ≡ places_in self.old k) }
    {
        self.by_ordinal.insert(ordinal, places)?;
        Ok(())
    }

    // Adds a place after the others of its ordinal.
    fn add(&mut self, alloc: Global, ordinal: u32, place: usize) -> Result<(), NoMemory>
        ensures { IfOk result (λ _. (k : ℕ) → places_in self.new k ≡ places_in self.old k ++ one_place k place ordinal) }
    {
        let mut places = self.take(alloc, ordinal);
        places.push(place)?;
        self.put(ordinal, places)
    }

    /// The places of these names.
    pub fn of(alloc: Global, names: &[(Name, u32)]) -> Result<Places, NoMemory>
        ensures { IfOk result (λ places. (ordinal : ℕ) → places_in places ordinal ≡ places_from ordinal 0 names.now) }
    {
        let mut places = Places::new(alloc);
        for place in 0..names.len() {
            places.add(alloc, names[place].1, place)?;
        }
        Ok(places)
    }
}
