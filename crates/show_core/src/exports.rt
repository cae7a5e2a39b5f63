//! The entry points and the names of a module ("Entry Table", "Resident or Non-resident Name Table Entry").

ghost use Rattle.std.specs.Prelude.{◌≡◌, ◌++◌, ◌∷◌, [], codes, length, OnOk};
ghost use Rattle.show_model.specs.Outlines.{tallies};

use crate::line;
use crate::outline::{Line, Told, add_list, line_of};
use line_words::Word;
use lx_types::{EntryHead, FwdKey, Module, Name, NoMemory};
use show_model::Part;
use std::alloc::Global;

/// How many ordinals there may be, with 0.
const ORDINALS: usize = 65_536;

/// A module, and for each ordinal the number of its first name, from 1, or 0 where it has none.
#[derive(Drop)]
struct Named<'a> {
    m: &'a Module,
    first: Vec<u32>,
}

/// The name of an import module, by its number from 1.
pub fn import_name(m: &Module, import: u32) -> &[u8] {
    match m.imports().get((import as usize).saturating_sub(1)) {
        Some(name) => name.bytes(),
        None => &[],
    }
}

impl Named<'_> {
    // The first name of an ordinal.
    fn name_of(&self, ordinal: u32) -> &[u8] {
        let number = self.first.get(ordinal as usize).copied().unwrap_or(0);
        match self.m.names().get((number as usize).wrapping_sub(1)) {
            Some(named) => named.0.bytes(),
            None => &[],
        }
    }
}

fn first_names(alloc: Global, names: &[(Name, u32)]) -> Result<Vec<u32>, NoMemory> {
    let mut first = vec![in alloc; 0u32; ORDINALS]?;
    let mut number = 0u32;
    for named in names {
        number = number.wrapping_add(1);
        if let Some(place) = first.get_mut(named.1 as usize) {
            if *place == 0 {
                *place = number;
            }
        }
    }
    Ok(first)
}

impl<'a> Told<Named<'a>> for (u32, EntryHead) {
    fn line<'x>(&'x self, alloc: Global, _number: u64, all: &'x Named<'a>) -> Line {
        let (ordinal, head) = *self;
        let name = all.name_of(ordinal);
        match head {
            EntryHead::At { object, offset } => {
                line!(alloc; Ordinal ordinal, Text b"object", Number object, Text b"offset", Hex offset, Text name)
            }
            EntryHead::Gate286 { object, offset } => {
                line!(alloc; Ordinal ordinal, Text b"call gate object", Number object, Text b"offset", Hex offset, Text name)
            }
            EntryHead::Forward { import, key } => {
                let from = import_name(all.m, import);
                let key = match key {
                    FwdKey::Ordinal(number) => Word::Ordinal(number),
                    FwdKey::NameAt(at) => Word::Text(all.m.proc_name(at).unwrap_or(&[])),
                };
                line_of(
                    alloc,
                    &[
                        Word::Ordinal(ordinal),
                        Word::Text(b"forwards to"),
                        Word::Text(from),
                        key,
                        Word::Text(name),
                    ],
                )
            }
        }
    }
}

impl Told<Module> for (Name, u32) {
    fn line<'x>(&'x self, alloc: Global, _number: u64, _m: &'x Module) -> Line {
        line!(alloc; Ordinal self.1, Text self.0.bytes())
    }
}

fn add_entries(alloc: Global, out: &mut Vec<Part>, m: &Module) -> Result<(), NoMemory>
    ensures { OnOk result (tallies out.new.items ≡ tallies out.old.items ++ (codes "exports", length m.now.entries) ∷ []) }
{
    let first = first_names(alloc, m.names())?;
    let all = Named { m, first };
    add_list(alloc, out, "exports", m.entries(), &all)
}

fn add_names(alloc: Global, out: &mut Vec<Part>, m: &Module) -> Result<(), NoMemory>
    ensures { OnOk result (tallies out.new.items ≡ tallies out.old.items ++ (codes "names of exports", length m.now.names) ∷ []) }
{
    add_list(alloc, out, "names of exports", m.names(), m)
}

/// Adds the entry points by their ordinals, each with its first name, and all names.
pub fn add_exports(alloc: Global, out: &mut Vec<Part>, m: &Module) -> Result<(), NoMemory>
    ensures { OnOk result (tallies out.new.items ≡ tallies out.old.items ++
        ((codes "exports", length m.now.entries) ∷ (codes "names of exports", length m.now.names) ∷ [])) }
{
    add_entries(alloc, out, m)?;
    add_names(alloc, out, m)
}
