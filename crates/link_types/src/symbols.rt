//! The symbols of a link.

ghost use Rattle.std.specs.Prelude.{◌≡◌, Some, is_some, option_and_then};
ghost use Rattle.std.specs.Option.{IsSome};
ghost use Rattle.obj_types.specs.Items.{item};
ghost use Rattle.link_types.specs.Globals.{global_in};

use crate::items::item_at;
use link_model::{Pick, SymDef};
use lx_types::{Name, Seq};
use name_table::NameTable;
use obj_types::{Common, Imp};
use std::marker::Model;

/// What each name means that is not local.
pub struct Globals {
    /// By its definition.
    pub defined: NameTable<Option<SymDef>>,
    /// As a communal, where it has no definition.
    pub communal: NameTable<SymDef>,
}

// Dropped by a call, as lists are (`Seq`).
impl Drop for Globals {
    fn drop(self) {
        let Globals { defined, communal } = self;
        drop(defined);
        drop(communal);
    }
}

/// The names of a link that are not local: what each means, the communals and the import pairs.
#[derive(Drop)]
pub struct GlobalNames {
    pub globals: Globals,
    pub commons: Seq<(Name, Common)>,
    pub imports: Seq<Imp>,
}

/// What a link chooses, and what its names mean.
pub struct Symbols {
    chosen: Seq<Pick>,
    globals: Globals,
    commons: Seq<(Name, Common)>,
    imports: Seq<Imp>,
    meanings: Seq<Seq<SymDef>>,
}

// Dropped by a call, as lists are (`Seq`).
impl Drop for Symbols {
    fn drop(self) {
        let Symbols {
            chosen,
            globals,
            commons,
            imports,
            meanings,
        } = self;
        drop(chosen);
        drop(globals);
        drop(commons);
        drop(imports);
        drop(meanings);
    }
}

impl Model for Symbols {
    ghost use Rattle.link_types.specs.Symbols.{SymbolTable};

    ghost Value = { SymbolTable };

    ghost view = { λ s. record { chosen = s.chosen; globals = s.globals; commons = s.commons; imports = s.imports; meanings = s.meanings } };
}

impl Globals {
    /// The meaning of a name that is not local.
    pub fn meaning(&self, name: &[u8]) -> Option<SymDef>
        ensures { result ≡ global_in self.now name.now }
    {
        match self.defined.get(name) {
            Some(Some(meaning)) => Some(*meaning),
            _ => self.communal.get(name).copied(),
        }
    }
}

impl Symbols {
    /// The chosen modules, in the order in which they are chosen.
    pub fn chosen(&self) -> &[Pick]
        ensures { result.now ≡ self.now.chosen }
    {
        self.chosen.as_slice()
    }

    /// Whether a chosen module has such an external; both count from 1.
    pub fn has_external(&self, module: u32, ext: u32) -> bool
        ensures { result ≡ is_some (option_and_then (λ row. item row ext) (item self.now.meanings «module»)) }
    {
        match item_at(self.meanings.as_slice(), module) {
            None => false,
            Some(row) => item_at(row.as_slice(), ext).is_some(),
        }
    }

    /// What an external of a chosen module means; both count from 1.
    pub fn find(&self, module: u32, ext: u32) -> SymDef
        requires { IsSome (option_and_then (λ row. item row ext) (item self.now.meanings «module»)) }
        ensures { option_and_then (λ row. item row ext) (item self.now.meanings «module») ≡ Some result }
    {
        self.meanings.as_slice()[module as usize - 1].as_slice()[ext as usize - 1]
    }

    /// What a name means that is not local.
    pub fn global(&self, name: &[u8]) -> Option<SymDef>
        ensures { result ≡ global_in self.now.globals name.now }
    {
        self.globals.meaning(name)
    }

    /// The communals, in order of first COMDEF; a communal's slot is its place.
    pub fn commons(&self) -> &[(Name, Common)]
        ensures { result.now ≡ self.now.commons }
    {
        self.commons.as_slice()
    }

    /// The import pairs, in order of definition; a pair's slot is its place.
    pub fn imports(&self) -> &[Imp]
        ensures { result.now ≡ self.now.imports }
    {
        self.imports.as_slice()
    }

    /// The symbols of these parts.
    pub fn of(chosen: Seq<Pick>, names: GlobalNames, meanings: Seq<Seq<SymDef>>) -> Symbols
        ensures { result
            ≡ record { chosen = chosen; globals = names.globals; commons = names.commons; imports = names.imports; meanings = meanings } }
    {
        Symbols {
            chosen,
            globals: names.globals,
            commons: names.commons,
            imports: names.imports,
            meanings,
        }
    }
}
