//! A library that nobody shares.

ghost use Rattle.std.specs.Prelude.{◌≡◌};

use mod_graph::Library;
use std::marker::Model;

/// A library that its owner took for itself alone. No loader has it, since a loader shares its library with its processes: so
/// each of its pages may be fixed as often as the owner likes.
pub struct OwnLibrary {
    lib: Library,
}

// Dropped by a call, as lists are (`Seq`).
impl Drop for OwnLibrary {
    fn drop(self) {
        let OwnLibrary { lib } = self;
        drop(lib);
    }
}

impl Model for OwnLibrary {
    ghost use Rattle.std.specs.Prelude.{List};
    ghost use Rattle.lx_types.specs.declared.parts.Parts.{Parts};

    ghost Value = { List Parts };

    ghost view = { λ o. o.lib };
}

impl OwnLibrary {
    /// The library, for its owner alone. It is not shared after this.
    pub fn of(lib: Library) -> OwnLibrary
        ensures { result ≡ lib }
    {
        OwnLibrary { lib }
    }

    /// The library.
    pub fn library(&self) -> &Library
        ensures { result.now ≡ self.now }
    {
        &self.lib
    }
}
