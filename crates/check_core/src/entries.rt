//! Whether an entry is what a board has last.

ghost use Rattle.std.specs.Prelude.{◌≡◌, ◌↔◌, [], ◌∷◌, ◌++◌, List, IsTrue};
ghost use Rattle.load_model.specs.declared.deeds.Entry.{Entry as Done};

use crate::sameness::Same;
use load_model::Entry;

impl Same for Entry {
    fn is_same(&self, other: &Entry) -> bool {
        self.pid == other.pid && self.deed.is_same(&other.deed)
    }
}

/// Whether an entry is the last one of a history.
pub fn is_last(history: &[Entry], told: &Entry) -> bool
    ensures { (before : List Done) (x : Done) → history.now ≡ before ++ x ∷ [] → (IsTrue result ↔ (x ≡ told.now)) }
{
    match history.last() {
        Some(last) => last.is_same(told),
        None => false,
    }
}
