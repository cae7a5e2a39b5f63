//! How many segments, groups and externals came before: what an index may be.

ghost use Rattle.std.specs.Prelude.{◌≡◌, IfOk, length};
ghost use Rattle.omf_fix.specs.Methods.{Counts, count_by};

use lx_types::{NoMemory, count};
use obj_types::ObjParts;

/// The numbers of segments, groups and externals of an unfinished module.
#[derive(Clone, Copy)]
pub struct Have {
    segs: u32,
    groups: u32,
    exts: u32,
}

impl Have {
    /// Those of these parts. A list of 2^32 items or more is want of memory: no refusal has room for its length.
    pub fn of(parts: &ObjParts) -> Result<Have, NoMemory>
        ensures { IfOk result (λ have. Counts have parts.now) }
    {
        Ok(Have {
            segs: count(parts.module.segs.as_slice().len())?,
            groups: count(parts.module.groups.as_slice().len())?,
            exts: count(parts.module.exts.as_slice().len())?,
        })
    }

    /// The number of segments.
    pub fn segs(self) -> u32
        ensures { result ≡ self.segs }
    {
        self.segs
    }

    /// How many items there are of a method's kind: segments (0), groups (1) or externals (2).
    pub fn by_method(self, method: u8) -> u32
        ensures { result ≡ count_by self method }
    {
        match method {
            0 => self.segs,
            1 => self.groups,
            _ => self.exts,
        }
    }
}
