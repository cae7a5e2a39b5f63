//! Imports that are lent.

ghost use Rattle.std.specs.Prelude.{◌≡◌};
ghost use Rattle.implib_model.specs.ImportModule.{NamesFit};
ghost use Rattle.omf_write.specs.Lent.{key_of, import_of};

use lx_types::{EntryKey, Name};
use obj_types::Imp;

/// An entry of a module.
#[derive(Clone, Copy)]
pub enum LentEntry<'a> {
    Ordinal(u32),
    Named(&'a Name),
}

/// An import whose names stand elsewhere.
#[derive(Clone, Copy)]
pub struct LentImport<'a> {
    /// What a program calls it.
    pub name: &'a Name,
    /// The module that has it.
    pub module: &'a Name,
    pub entry: LentEntry<'a>,
}

impl<'a> LentEntry<'a> {
    /// An entry whose name stays where it is.
    pub fn of(entry: &'a EntryKey) -> LentEntry<'a>
        ensures { key_of result ≡ entry.entry.now }
    {
        match entry {
            EntryKey::Ordinal(ordinal) => LentEntry::Ordinal(*ordinal),
            EntryKey::Named(name) => LentEntry::Named(name),
        }
    }
}

impl<'a> LentImport<'a> {
    /// An import whose names stay where they are.
    pub fn of(import: &'a Imp) -> LentImport<'a>
        ensures { import_of result ≡ import.entry.now }
    {
        LentImport {
            name: &import.name,
            module: &import.module,
            entry: LentEntry::of(&import.entry),
        }
    }

    /// What the type of a name says of the import's.
    pub fn names_fit(self)
        ensures { NamesFit (import_of self.entry) }
    {
        let _internal = self.name.bytes();
        let _from = self.module.bytes();
        if let LentEntry::Named(name) = self.entry {
            let _entry = name.bytes();
        }
    }
}
