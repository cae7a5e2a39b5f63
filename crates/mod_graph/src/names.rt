//! The names of a module, by their bytes.

ghost use Rattle.std.specs.Prelude.{◌≡◌, ◌<◌, IfOk, List, ℕ, [], length, slice_index_or};
ghost use Rattle.lx_types.specs.Parts.{ordinal_named};
ghost use Rattle.mod_graph.specs.Names.{AreIndexed};

use indexmap::IndexMap;
use lx_types::{Module, Name, NoMemory};
use std::alloc::Global;
use std::marker::Model;

/// Which ordinal a name has: the first in a module's name tables.
#[derive(Drop)]
pub struct NameIndex {
    ordinals: IndexMap<Vec<u8>, u32>,
}

impl Model for NameIndex {
    ghost use Rattle.std.specs.Prelude.{List, ℕ, map};

    ghost Value = { List (List ℕ × ℕ) };

    ghost view = { λ n. map (λ e. (e.0.items, e.1)) n.ordinals.entries };
}

// A copy of the name at a place.
fn name_at(alloc: Global, names: &[(Name, u32)], place: usize) -> Result<Vec<u8>, NoMemory>
    requires { place < length names.now }
    ensures { IfOk result (λ name. name.items ≡ (slice_index_or names.now place ([], 0)).0) }
{
    Ok(names[place].0.bytes().to_vec(alloc)?)
}

// The ordinal of the name at a place.
fn ordinal_at(names: &[(Name, u32)], place: usize) -> u32
    requires { place < length names.now }
    ensures { result ≡ (slice_index_or names.now place ([], 0)).1 }
{
    names[place].1
}

impl NameIndex {
    /// The index of these names. It takes time that grows as they do.
    pub fn of(alloc: Global, names: &[(Name, u32)]) -> Result<NameIndex, NoMemory>
        ensures { IfOk result (λ index. (name : List ℕ) → ordinal_named index name ≡ ordinal_named names.now name) }
    {
        let mut ordinals = IndexMap::new(alloc);
        for place in (0..names.len()).rev() {
            let name = name_at(alloc, names, place)?;
            ordinals.insert(name, ordinal_at(names, place))?;
        }
        Ok(NameIndex { ordinals })
    }

    /// The ordinal of a name.
    pub fn ordinal_of(&self, name: &[u8]) -> Option<u32>
        ensures { result ≡ ordinal_named self.now name.now }
    {
        self.ordinals.get(name).copied()
    }
}

/// Index `m` of these.
pub fn index_at(names: &[NameIndex], m: u32) -> &NameIndex
    requires { m < length names.now }
    ensures { result.now ≡ slice_index_or names.now m [] }
{
    &names[m as usize]
}

/// The index of each module's names.
pub fn indexes_of(alloc: Global, mods: &[Module]) -> Result<Vec<NameIndex>, NoMemory>
    ensures { IfOk result (λ names. AreIndexed mods.now names.items) }
{
    let mut names = Vec::new(alloc);
    for m in mods {
        names.push(NameIndex::of(alloc, m.names())?)?;
    }
    Ok(names)
}
