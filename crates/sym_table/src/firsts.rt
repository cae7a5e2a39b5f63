//! Each name's first definition, and whether a name has a second one.

ghost use Rattle.std.specs.Prelude.{◌≡◌, None, Some, IfOk, map};
ghost use Rattle.lx_types.specs.Answers.{Answers};
ghost use Rattle.link_model.specs.Symbols.{same_pair, same_entry};
ghost use Rattle.link_model.specs.SymbolRefusals.{counts_once};
ghost use Rattle.link_model.specs.declared.refusals.SymRefusal.TheVariants.{Twice};
ghost use Rattle.sym_table.specs.Definitions.{meaning_shown, shown, twice_among};
ghost use Rattle.name_table.specs.Entries.{with_entry};
ghost use Rattle.sym_table.specs.Firsts.{firsts_of, second_in};

use crate::definitions::{Definition, Meaning};
use link_model::SymRefusal;
use lx_types::{EntryKey, Fail, NoMemory};
use name_table::LentTable;
use obj_types::Imp;
use std::alloc::Global;

pub fn same_entry(one: &EntryKey, other: &EntryKey) -> bool
    ensures { result ≡ same_entry one.now other.now }
{
    match (one, other) {
        (EntryKey::Ordinal(a), EntryKey::Ordinal(b)) => a == b,
        (EntryKey::Named(a), EntryKey::Named(b)) => a == b,
        _ => false,
    }
}

/// Whether two import pairs name one module and one entry.
pub fn same_pair(one: &Imp, other: &Imp) -> bool
    ensures { result ≡ same_pair one.now other.now }
{
    one.module.same_module(&other.module) && same_entry(&one.entry, &other.entry)
}

fn counts_once(one: &Definition<'_>, other: &Definition<'_>) -> bool
    ensures { result ≡ counts_once (meaning_shown one.now.meaning) (meaning_shown other.now.meaning) }
{
    match (one.meaning, other.meaning) {
        (Meaning::Imported(a), Meaning::Imported(b)) => same_pair(a, b),
        _ => false,
    }
}

fn twice(
    alloc: Global,
    first: &Definition<'_>,
    second: &Definition<'_>,
) -> Result<SymRefusal, NoMemory>
    ensures { IfOk result (λ r. r ≡ Twice second.now.name.now first.now.by second.now.by) }
{
    Ok(SymRefusal::Twice {
        name: second.name.copied(alloc)?,
        first: first.by,
        second: second.by,
    })
}

// Adds a definition where its name has none. A second one is `Twice`, unless the two count once.
fn add_definition<'a>(
    alloc: Global,
    table: &mut LentTable<'a, Definition<'a>>,
    definition: &Definition<'a>,
) -> Result<(), Fail<SymRefusal>>
    ensures { Answers result
        (λ _. (table.new ≡ with_entry table.old definition.entry.now.name.now definition.entry.now)
        × (second_in table.old definition.entry.now ≡ None))
        (λ refusal. second_in table.old definition.entry.now ≡ Some refusal) }
{
    if let Some(first) = table.push(definition.name.bytes(), *definition)? {
        if !counts_once(&first, definition) {
            return Err(Fail::Said(twice(alloc, &first, definition)?));
        }
    }
    Ok(())
}

/// The table of first definitions.
pub fn first_definitions<'a>(
    alloc: Global,
    found: &[Definition<'a>],
) -> Result<LentTable<'a, Definition<'a>>, Fail<SymRefusal>>
    ensures { Answers result
        (λ table. (table ≡ firsts_of found.entry.now) × (twice_among (map shown found.entry.now) ≡ None))
        (λ refusal. twice_among (map shown found.entry.now) ≡ Some refusal) }
{
    let mut table = LentTable::with_room(alloc, found.len())?;
    for definition in found {
        match add_definition(alloc, &mut table, definition) {
            Ok(()) => {}
            Err(fail) => return Err(fail),
        }
    }
    Ok(table)
}
