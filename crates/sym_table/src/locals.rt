//! A module's local publics by their names.

ghost use Rattle.std.specs.Prelude.{◌≡◌, ◌&&◌, ℕ, List, find, bytes_eq, option_map, IfOk};
ghost use Rattle.name_table.specs.Entries.{value_named};

use lx_types::NoMemory;
use name_table::LentTable;
use obj_types::{Pub, PubPlace};
use std::alloc::Global;

/// The places of the local publics; of one name the first counts.
pub fn locals_of<'a>(alloc: Global, publics: &'a [Pub]) -> Result<LentTable<'a, PubPlace>, NoMemory>
    ensures { IfOk result (λ table. (name : List ℕ) → value_named name table
        ≡ option_map (λ p. p.place) (find (λ p. p.local && bytes_eq p.name name) publics.entry.now)) }
{
    let mut table = LentTable::new(alloc);
    for public in publics {
        if public.local {
            table.push(public.name.bytes(), public.place)?;
        }
    }
    Ok(table)
}
