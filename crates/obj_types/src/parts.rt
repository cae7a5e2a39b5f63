//! The unfinished module: what a reader has after some of a module's records.

ghost use Rattle.std.specs.Prelude.{◌≡◌};
ghost use Rattle.obj_types.specs.Fresh.{fresh_parts};

use crate::{Frame, Goal, ObjModule, Seg, Selection};
use lx_types::{Bytes, Name, Names, Seq};
use std::alloc::Global;

/// The data record to which a fixup's offset refers.
#[derive(Drop)]
pub enum LastData {
    /// No data record came.
    None,
    /// An LEDATA record.
    Straight {
        seg: u32,
        offset: u32,
        len: u32,
    },
    /// An LIDATA record, with its blocks unexpanded. Their repeat counts have 4 bytes where it is `wide`.
    Blocks {
        seg: u32,
        offset: u32,
        wide: bool,
        body: Bytes,
    },
    /// Data of a debug segment.
    Dropped,
}

/// What the THREAD fields so far mean, by number from 0 to 3.
#[derive(Clone, Copy)]
pub struct Threads {
    pub frame: [Option<Frame>; 4],
    pub goal: [Option<Goal>; 4],
}

/// A COMDAT of which one record came at least.
#[derive(Drop)]
pub struct BegunComdat {
    pub name: Name,
    pub selection: Selection,
    /// Its segment, without a length: it is as long as its data in the end.
    pub seg: Seg,
    /// The group whose member the segment is, 0 for none.
    pub group: u32,
}

/// The COMDATs of an unfinished module.
pub type BegunComdats = Seq<BegunComdat>;

/// The number of an unfinished module's first COMDAT's segment, less 1: no index is as great.
pub const COMDAT_BASE: u32 = 65_536;

/// An unfinished module. Its publics, pieces and fixes name the segment of its COMDAT `k`, from 1, by the number
/// `COMDAT_BASE + k`. Its segments and its groups do not have them, nor does it have COMDATs yet.
#[derive(Drop)]
pub struct ObjParts {
    /// The names of the LNAMES records.
    pub names: Names,
    pub module: ObjModule,
    pub last: LastData,
    pub threads: Threads,
    pub comdats: BegunComdats,
}

impl ObjParts {
    /// The module before its first record. It takes no memory.
    pub fn fresh(alloc: Global) -> ObjParts
        ensures { result ≡ fresh_parts }
    {
        ObjParts {
            names: Seq::new(alloc),
            module: ObjModule {
                name: Name::empty(alloc),
                segs: Seq::new(alloc),
                groups: Seq::new(alloc),
                pubs: Seq::new(alloc),
                exts: Seq::new(alloc),
                pieces: Seq::new(alloc),
                fixes: Seq::new(alloc),
                imports: Seq::new(alloc),
                exports: Seq::new(alloc),
                deflibs: Seq::new(alloc),
                start: None,
                comdats: Seq::new(alloc),
            },
            last: LastData::None,
            threads: Threads {
                frame: [None; 4],
                goal: [None; 4],
            },
            comdats: Seq::new(alloc),
        }
    }
}
