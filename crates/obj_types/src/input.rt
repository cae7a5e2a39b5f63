//! What a link is given.

use crate::{DefFile, ObjModule};
use lx_types::{Name, Seq};

/// Object modules, as those of a library.
pub type ObjModules = Seq<ObjModule>;

/// All that one link reads.
pub struct LinkInput {
    /// The modules of the object files.
    pub objects: ObjModules,
    /// The modules of the libraries.
    pub libs: ObjModules,
    pub def: DefFile,
    /// The linked module's name where the definition file has none.
    pub stem: Name,
}

// Dropped by a call, as lists are (`Seq`).
impl Drop for LinkInput {
    fn drop(self) {
        let LinkInput {
            objects,
            libs,
            def,
            stem,
        } = self;
        drop(objects);
        drop(libs);
        drop(def);
        drop(stem);
    }
}
