//! The one table of the linker that counts by first appearance.

ghost use Rattle.std.specs.Prelude.{◌≡◌, ◌<◌, [], IfOk, MatchResult, option_copied, length, position};
ghost use Rattle.std.specs.List.{position_or_len};
ghost use Rattle.name_table.specs.Entries.{is_named, value_named, with_entry, with_value};

use crate::key::{NameKey, NameQuery};
use indexmap::IndexMap;
use lx_types::NoMemory;
use std::alloc::Global;
use std::marker::Model;

/// Names with a value each, in the order in which the names were first pushed. Names are compared byte for byte.
pub struct NameTable<V> {
    entries: IndexMap<NameKey, V>,
}

// Dropped by a call, as lists are (`Seq`).
impl<V: Drop> Drop for NameTable<V> {
    fn drop(self) {
        let NameTable { entries } = self;
        drop(entries);
    }
}

impl<V> Model for NameTable<V> {
    ghost use Rattle.std.specs.Prelude.{List, ℕ, map};

    ghost Value = { List (List ℕ × V) };

    ghost view = { λ t. map (λ e. (e.0.bytes.items, e.1)) t.entries.entries };
}

impl<V> NameTable<V> {
    /// The table without names. It takes no memory.
    pub fn new(alloc: Global) -> NameTable<V>
        ensures { result ≡ [] }
    {
        NameTable {
            entries: IndexMap::new(alloc),
        }
    }

    /// The table without names, with room for so many.
    pub fn with_room(alloc: Global, names: usize) -> Result<NameTable<V>, NoMemory>
        ensures { IfOk result (λ table. table ≡ []) }
    {
        let entries = IndexMap::with_capacity(alloc, names)?;
        Ok(NameTable { entries })
    }

    /// How many different names there are.
    pub fn len(&self) -> usize
        ensures { result ≡ length self.now }
    {
        self.entries.len()
    }

    /// The place of a name, from 0.
    pub fn place_of(&self, name: &[u8]) -> Option<usize>
        ensures { result ≡ position (is_named name.now) self.now }
    {
        self.entries.get_index_of(NameQuery { bytes: name })
    }

    /// The value that the name first had.
    pub fn get(&self, name: &[u8]) -> Option<&V>
        ensures { option_copied result ≡ value_named name.now self.now }
    {
        self.entries.get(NameQuery { bytes: name })
    }
}

impl<V: Drop> NameTable<V> {
    /// Adds a name with its value at the end, unless the name is there, and answers the name's place. Where it finds
    /// no memory the table is as it was.
    pub fn push(&mut self, alloc: Global, name: &[u8], value: V) -> Result<usize, NoMemory>
        ensures place { MatchResult result
            (λ place. place ≡ position_or_len (is_named name.now) self.old) (λ _. self.new ≡ self.old) }
        ensures entries { MatchResult result
            (λ _. self.new ≡ with_entry self.old name.now value) (λ _. self.new ≡ self.old) }
    {
        match self.place_of(name) {
            Some(place) => Ok(place),
            None => {
                let place = self.len();
                self.set(alloc, name, value)?;
                Ok(place)
            }
        }
    }

    /// Gives a name this value in the place of the one that it has; a new name goes last. Where it finds no memory
    /// the table is as it was.
    pub fn set(&mut self, alloc: Global, name: &[u8], value: V) -> Result<(), NoMemory>
        ensures { MatchResult result
            (λ _. self.new ≡ with_value self.old name.now value) (λ _. self.new ≡ self.old) }
    {
        let key = NameKey::of(alloc, name)?;
        self.entries.insert(key, value)?;
        Ok(())
    }
}
