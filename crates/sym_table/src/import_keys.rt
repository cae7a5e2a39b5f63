//! The table of import pairs.

ghost use Rattle.std.proofs.Common.{ap};
ghost use Rattle.std.specs.Prelude.{◌≡◌, ◌∷◌, [], position, map};
ghost use Rattle.std.specs.Cmp as Cmp;
ghost use Rattle.std.specs.Cmp.{on_equiv, on_per};
ghost use Rattle.link_model.specs.Symbols.{import_key, same_import};
ghost use Rattle.link_model.proofs.KeyTests.{import_tests};
ghost use Rattle.sym_table.specs.ImportNames.{same_names};

use crate::firsts::same_pair;
use indexmap::IndexMap;
use obj_types::Imp;
use std::hash::{Hash, Hasher};

/// An import pair as the key of a table. Its name alone goes to the hasher: one name seldom has two pairs.
#[derive(Clone, Copy)]
pub struct PairKey<'a> {
    pub pair: &'a Imp,
}

impl PartialEq for PairKey<'_> {
    ghost eq = { λ x y. same_import (import_key x.pair.now) (import_key y.pair.now) };

    ghost laws = { on_per (λ x. x.pair.now) (Cmp.partial_equiv_from_equiv import_tests) };

    fn eq(&self, other: &PairKey<'_>) -> bool {
        self.pair.name == other.pair.name && same_pair(self.pair, other.pair)
    }
}

impl Eq for PairKey<'_> {
    ghost laws = { on_equiv (λ x. x.pair.now) import_tests };
}

impl Hash for PairKey<'_> {
    ghost hash_input = { λ k. k.pair.now.name ∷ [] };

    ghost respects_eq = { λ x y same. ap (λ name. name ∷ []) (same_names x.pair.now y.pair.now same) };

    fn hash<H: Hasher>(&self, state: &mut H) {
        state.write(self.pair.name.bytes());
    }
}

pub fn place_in<'a>(table: &IndexMap<PairKey<'a>, ()>, pair: &'a Imp) -> Option<usize>
    ensures { result ≡ position (λ known. same_import (import_key pair.entry.now) (import_key known)) (map (λ e. e.0.pair.now) table.entry.now.entries) }
{
    table.get_index_of(&PairKey { pair })
}
