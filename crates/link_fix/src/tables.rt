//! The import tables: the modules and the procedure names of the entry points that records name, in order of first use.

ghost use Rattle.std.specs.Prelude.{◌≡◌, ◌++◌, ◌∷◌, [], OnOk, IfOk, map, bytes_eq, List, ℕ, option_copied, option_to_list};
ghost use Rattle.std.specs.List.{position, list_any};
ghost use Rattle.lx_types.specs.Names.{uppercase};
ghost use Rattle.link_model.specs.Appearance.{firsts};
ghost use Rattle.link_model.specs.ImportTables.{modules_in, procs_in, entry_target, import_target, proc_name};
ghost use Rattle.obj_types.specs.declared.symbol.Imp.{Imp};
ghost use Rattle.link_fix.specs.Shown.{shown, target_shown};
ghost use Rattle.link_fix.specs.Tables.{AreFirst, ArePairs, pair_among, pairs_among};

use crate::fixup::{Fixup, Target};
use lx_types::{EntryKey, FixTarget, Name, Names, NoMemory, Seq, count};
use name_table::NameTable;
use obj_types::Imp;
use std::alloc::Global;

/// Names in the order in which they were first pushed, each once.
pub struct FirstNames {
    places: NameTable<()>,
    names: Names,
}

// Dropped by a call, as lists are (`Seq`).
impl Drop for FirstNames {
    fn drop(self) {
        let FirstNames { places, names } = self;
        drop(places);
        drop(names);
    }
}

impl FirstNames {
    /// No names. It takes no memory.
    pub fn new(alloc: Global) -> FirstNames
        ensures { AreFirst result [] }
    {
        FirstNames {
            places: NameTable::new(alloc),
            names: Seq::new(alloc),
        }
    }

    /// Adds a name, unless it is there.
    pub fn push(&mut self, alloc: Global, name: Name) -> Result<(), NoMemory>
        ensures { OnOk result ((pushed : List (List ℕ)) → AreFirst self.old (firsts bytes_eq pushed) →
            AreFirst self.new (firsts bytes_eq (pushed ++ name ∷ []))) }
    {
        if !self.has(&name) {
            self.places.push(alloc, name.bytes(), ())?;
            self.names.push(name)?;
        }
        Ok(())
    }

    // Whether a name is there.
    fn has(&self, name: &Name) -> bool
        ensures { (names : List (List ℕ)) → AreFirst self.now names → result ≡ list_any (bytes_eq name.now) names }
    {
        self.place_of(name).is_some()
    }

    // The place of a name, from 0.
    fn place_of(&self, name: &Name) -> Option<usize>
        ensures { (names : List (List ℕ)) → AreFirst self.now names → result ≡ position (λ n. bytes_eq name.now n) names }
    {
        self.places.place_of(name.bytes())
    }
}

impl FirstNames {
    fn into_names(self) -> Names
        ensures { result ≡ self.names }
    {
        let FirstNames {
            places: _places,
            names,
        } = self;
        names
    }
}

/// The import modules, in upper case, and the names of import procedures.
pub struct ImportTables {
    modules: FirstNames,
    procs: FirstNames,
}

// Dropped by a call, as lists are (`Seq`).
impl Drop for ImportTables {
    fn drop(self) {
        let ImportTables { modules, procs } = self;
        drop(modules);
        drop(procs);
    }
}

impl ImportTables {
    fn new(alloc: Global) -> ImportTables
        ensures { ArePairs result [] }
    {
        ImportTables {
            modules: FirstNames::new(alloc),
            procs: FirstNames::new(alloc),
        }
    }

    fn push_proc(&mut self, alloc: Global, entry: &EntryKey) -> Result<(), NoMemory>
        ensures modules { OnOk result (self.new.modules ≡ self.old.modules) }
        ensures procs { OnOk result ((pushed : List (List ℕ)) → AreFirst self.old.procs (firsts bytes_eq pushed) →
            AreFirst self.new.procs (firsts bytes_eq (pushed ++ option_to_list (proc_name entry.now)))) }
    {
        match entry {
            EntryKey::Ordinal(_) => Ok(()),
            EntryKey::Named(name) => {
                let name = name.copied(alloc)?;
                self.procs.push(alloc, name)?;
                Ok(())
            }
        }
    }

    /// The tables of these names.
    pub fn of(modules: FirstNames, procs: FirstNames) -> ImportTables
        ensures { result ≡ record { modules = modules; procs = procs } }
    {
        ImportTables { modules, procs }
    }

    /// The names of the procedures.
    pub fn procs(&self) -> &[Name]
        ensures { result.now ≡ self.now.procs.names }
    {
        self.procs.names.as_slice()
    }

    /// Adds the names of an import pair.
    pub fn push(&mut self, alloc: Global, pair: &Imp) -> Result<(), NoMemory>
        ensures { OnOk result ((pairs : List Imp) → ArePairs self.old pairs → ArePairs self.new (pairs ++ pair.now ∷ [])) }
    {
        let module = pair.module.to_uppercase(alloc)?;
        self.modules.push(alloc, module)?;
        self.push_proc(alloc, &pair.entry)?;
        Ok(())
    }

    fn entry_target(&self, import: u32, entry: &EntryKey) -> Result<Option<FixTarget>, NoMemory>
        ensures { IfOk result (λ target. (pairs : List Imp) → ArePairs self.now pairs → target ≡ entry_target pairs import entry.now) }
    {
        match entry {
            EntryKey::Ordinal(ordinal) => Ok(Some(FixTarget::Ordinal {
                import,
                ordinal: *ordinal,
            })),
            EntryKey::Named(name) => match self.procs.place_of(name) {
                None => Ok(None),
                Some(place) => Ok(Some(FixTarget::Named {
                    import,
                    name_at: count(place)?,
                })),
            },
        }
    }

    /// How a record names an entry point: by the number of its module, from 1, and its ordinal or the place of its
    /// name, from 0. There is none for a pair that is not in the tables.
    pub fn target_of(&self, alloc: Global, pair: &Imp) -> Result<Option<FixTarget>, NoMemory>
        ensures { IfOk result (λ target. (pairs : List Imp) → ArePairs self.now pairs → target ≡ import_target pairs pair.now) }
    {
        let module = pair.module.to_uppercase(alloc)?;
        match self.modules.place_of(&module) {
            None => Ok(None),
            Some(place) => match count(place)?.checked_add(1) {
                None => Err(NoMemory),
                Some(import) => self.entry_target(import, &pair.entry),
            },
        }
    }

    /// The names of the modules, and those of the procedures.
    pub fn into_names(self) -> (Names, Names)
        ensures { (pairs : List Imp) → ArePairs self pairs → (result.0 ≡ modules_in pairs) × (result.1 ≡ procs_in pairs) }
    {
        let ImportTables { modules, procs } = self;
        (modules.into_names(), procs.into_names())
    }
}

// Adds the pair that a fixup names.
fn add_pair(
    alloc: Global,
    tables: &mut ImportTables,
    imports: &[Imp],
    target: Target,
) -> Result<(), NoMemory>
    ensures { OnOk result ((pairs : List Imp) → ArePairs tables.old pairs
        → ArePairs tables.new (pairs ++ option_to_list (pair_among imports.now (target_shown target)))) }
{
    if let Some(pair) = pair_of(imports, target) {
        tables.push(alloc, pair)?;
    }
    Ok(())
}

// The import tables of these fixups, which are looked at one after another.
fn tables_among(alloc: Global, imports: &[Imp], fixups: &[Fixup]) -> Result<ImportTables, NoMemory>
    ensures { IfOk result (λ tables. ArePairs tables (pairs_among imports.now (map shown fixups.now))) }
{
    let mut tables = ImportTables::new(alloc);
    for q in fixups {
        add_pair(alloc, &mut tables, imports, q.target)?;
    }
    Ok(tables)
}

/// The import tables of these fixups, where these are the import pairs of the link. Where there are none, no fixup is looked
/// at.
pub(crate) fn tables_of(
    alloc: Global,
    imports: &[Imp],
    fixups: &[Fixup],
) -> Result<ImportTables, NoMemory>
    ensures { IfOk result (λ tables. ArePairs tables (pairs_among imports.now (map shown fixups.now))) }
{
    if imports.is_empty() {
        return Ok(ImportTables::new(alloc));
    }
    tables_among(alloc, imports, fixups)
}

/// The import pair of a target.
pub fn pair_of<'a>(imports: &'a [Imp], target: Target) -> Option<&'a Imp>
    ensures { option_copied result ≡ pair_among imports.entry.now (target_shown target) }
{
    match target {
        Target::Internal {
            object: _,
            offset: _,
        }
        | Target::Constant { value: _ } => None,
        Target::Entry { slot } => imports.get(slot as usize),
    }
}
