//! A library as a process has it.

ghost use Rattle.std.specs.Prelude.{◌≡◌};
ghost use Rattle.std.specs.Arc.{arc_value};

use mod_graph::Library;
use std::marker::Model;
use std::ops::Deref;
use std::sync::Arc;

/// A library that is shared, for who only reads it: nobody gets at the `Arc` again, with which rights are made.
pub struct LentLibrary {
    lib: Arc<Library>,
}

// Dropped by a call, as lists are (`Seq`).
impl Drop for LentLibrary {
    fn drop(self) {
        let LentLibrary { lib } = self;
        drop(lib);
    }
}

impl Model for LentLibrary {
    ghost use Rattle.std.specs.Prelude.{List};
    ghost use Rattle.std.specs.Arc.{arc_value};
    ghost use Rattle.lx_types.specs.declared.parts.Parts.{Parts};

    ghost Value = { List Parts };

    ghost view = { λ l. arc_value l.lib };
}

impl LentLibrary {
    /// The library, to be read alone.
    pub fn lend(lib: Arc<Library>) -> LentLibrary
        ensures { result ≡ arc_value lib }
    {
        LentLibrary { lib }
    }
}

impl Deref for LentLibrary {
    type Target = Library;

    ghost deref_gives = { λ lent lib. lib ≡ lent };

    fn deref(&self) -> &Library {
        &self.lib
    }
}
