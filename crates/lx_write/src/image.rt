//! A linked module before it is written.

use link_model::LaidObject;
use lx_exports::OutEntry;
use lx_types::{Bytes, Fix, Name, Names, Seq};
use obj_types::ModKind;

/// A linked module: its objects with their bytes and fixups, and what it imports and exports.
/// Objects and import modules count from 1.
pub struct Image {
    /// Whether the module is a program or a library.
    pub kind: ModKind,
    /// The module's name, which is not empty.
    pub name: Name,
    /// The description; in the place of an empty one the file has the module's name.
    pub about: Name,
    /// The module flags, where a library's own flag may be left out.
    pub flags: u32,
    /// The object in which the program starts, and the offset there.
    pub start: Option<(u32, u32)>,
    /// The object of the stack, and the offset at which it begins.
    pub stack: Option<(u32, u32)>,
    /// How many bytes the heap has.
    pub heap: u32,
    /// The automatic data object, or 0.
    pub auto: u32,
    pub objects: Seq<LaidObject>,
    /// The bytes of each object, as many as its size.
    pub bytes: Seq<Bytes>,
    /// The fixups of each page, of 4,096 bytes, of each object. Here `name_at` of a target is a
    /// place in `procs`, from 0; in the file it is the name's offset in the import procedure table.
    pub fixes: Seq<Seq<Seq<Fix>>>,
    /// The names of the import modules, as they stand in the file.
    pub imports: Names,
    /// The names of the import procedures.
    pub procs: Names,
    /// The exports. A forwarder by name has the name's offset in the import procedure table, which
    /// `name_offsets` tells.
    pub exports: Seq<OutEntry>,
}

// Dropped by a call, as lists are (`Seq`).
impl Drop for Image {
    fn drop(self) {
        let Image {
            kind: _,
            name,
            about,
            flags: _,
            start: _,
            stack: _,
            heap: _,
            auto: _,
            objects,
            bytes,
            fixes,
            imports,
            procs,
            exports,
        } = self;
        drop(name);
        drop(about);
        drop(objects);
        drop(bytes);
        drop(fixes);
        drop(imports);
        drop(procs);
        drop(exports);
    }
}
