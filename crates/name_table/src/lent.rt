//! The table by first appearance of names that outlive it.

ghost use Rattle.std.specs.Prelude.{◌≡◌, [], IfOk, OnOk, length, option_copied};
ghost use Rattle.name_table.specs.Entries.{value_named, with_entry, with_value};

use crate::key::NameQuery;
use indexmap::IndexMap;
use lx_types::NoMemory;
use std::alloc::Global;
use std::marker::Model;

/// Names with a value each, in the order in which the names were first pushed, as in a [`NameTable`](crate::NameTable).
/// The names are lent to the table, which takes no memory for a copy of them.
pub struct LentTable<'a, V> {
    entries: IndexMap<NameQuery<'a>, V>,
}

// Dropped by a call, as lists are (`Seq`).
impl<'a, V: Drop> Drop for LentTable<'a, V> {
    fn drop(self) {
        let LentTable { entries } = self;
        drop(entries);
    }
}

impl<'a, V> Model for LentTable<'a, V> {
    ghost use Rattle.std.specs.Prelude.{List, ℕ, map};

    ghost Value = { List (List ℕ × V) };

    ghost view = { λ t. map (λ e. (e.0.bytes.now, e.1)) t.entries.entries };
}

impl<'a, V> LentTable<'a, V> {
    /// The table without names. It takes no memory.
    pub fn new(alloc: Global) -> LentTable<'a, V>
        ensures { result ≡ [] }
    {
        LentTable {
            entries: IndexMap::new(alloc),
        }
    }

    /// The table without names, with room for so many.
    pub fn with_room(alloc: Global, names: usize) -> Result<LentTable<'a, V>, NoMemory>
        ensures { IfOk result (λ table. table ≡ []) }
    {
        let entries = IndexMap::with_capacity(alloc, names)?;
        Ok(LentTable { entries })
    }

    /// How many different names there are.
    pub fn len(&self) -> usize
        ensures { result ≡ length self.now }
    {
        self.entries.len()
    }

    /// The value that the name has.
    pub fn get(&self, name: &[u8]) -> Option<&V>
        ensures { option_copied result ≡ value_named name.now self.now }
    {
        self.entries.get(NameQuery { bytes: name })
    }
}

impl<'a, V: Copy + Drop> LentTable<'a, V> {
    /// Adds a name with its value at the end, unless the name is there, and answers the value that it had.
    pub fn push(&mut self, name: &'a [u8], value: V) -> Result<Option<V>, NoMemory>
        ensures had { IfOk result (λ had. had ≡ value_named name.entry.now self.old) }
        ensures entries { OnOk result (self.new ≡ with_entry self.old name.entry.now value) }
    {
        match self.set(name, value)? {
            None => Ok(None),
            Some(first) => {
                self.set(name, first)?;
                Ok(Some(first))
            }
        }
    }

    /// Gives a name this value in the place of the one that it has, and answers the latter; a new name goes last.
    pub fn set(&mut self, name: &'a [u8], value: V) -> Result<Option<V>, NoMemory>
        ensures had { IfOk result (λ had. had ≡ value_named name.entry.now self.old) }
        ensures entries { OnOk result (self.new ≡ with_value self.old name.entry.now value) }
    {
        Ok(self.entries.insert(NameQuery { bytes: name }, value)?)
    }
}
