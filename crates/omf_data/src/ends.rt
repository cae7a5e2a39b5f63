//! Where the locations of the fixes so far end, by segment ("9Ch FIXUPP").

ghost use Rattle.std.specs.Prelude.{◌≡◌, ℕ, List, OnOk, length};
ghost use Rattle.obj_types.specs.declared.object.FixAt.{FixAt};
ghost use Rattle.omf_data.specs.Ends.{HaveEnds, end_in};

use indexmap::IndexMap;
use lx_types::NoMemory;
use obj_types::{FixAt, location_len};
use std::alloc::Global;

/// The end of the furthest location of each segment, of an unfinished module's fixes or of the first of them: what came since
/// is seen before an end is asked. No location has a byte at the end of its segment or after it.
#[derive(Drop)]
pub struct FixEnds {
    seen: usize,
    // The segment of the fix that was seen last, which is mostly the next one's, and its end.
    seg: u32,
    end: u64,
    // The ends of the segments before.
    others: IndexMap<u32, u64>,
}

impl FixEnds {
    /// The ends of no fixes. They take no memory.
    pub fn new(alloc: Global) -> FixEnds
        ensures { (fixes : List FixAt) → HaveEnds result fixes }
    {
        FixEnds {
            seen: 0,
            seg: 0,
            end: 0,
            others: IndexMap::new(alloc),
        }
    }

    /// The end of a segment, and 0 of one without a location.
    pub fn end(&self, seg: u32) -> u64
        ensures { result ≡ end_in self.now seg }
    {
        if self.seg == seg {
            return self.end;
        }
        match self.others.get(&seg) {
            Some(end) => *end,
            None => 0,
        }
    }

    // Has a segment's end at hand.
    fn turn_to(&mut self, seg: u32) -> Result<(), NoMemory>
        ensures turned { OnOk result (self.new.seg ≡ seg) }
        ensures ends { (s : ℕ) → end_in self.new s ≡ end_in self.old s }
        ensures seen { self.new.seen ≡ self.old.seen }
    {
        if self.seg == seg {
            return Ok(());
        }
        let end = self.end(seg);
        self.others.insert(self.seg, self.end)?;
        self.seg = seg;
        self.end = end;
        Ok(())
    }

    /// Sees the fixes that came since.
    pub fn see(&mut self, fixes: &[FixAt]) -> Result<(), NoMemory>
        requires seen { HaveEnds self.old fixes.now }
        ensures seen { HaveEnds self.new fixes.now }
        ensures all { OnOk result (self.new.seen ≡ length fixes.now) }
    {
        'fixes: while self.seen < fixes.len() {
            let fix = &fixes[self.seen];
            self.turn_to(fix.seg)?;
            let end = u64::from(fix.offset) + u64::from(location_len(fix.loc));
            self.end = u64::max(self.end, end);
            self.seen += 1;
        }
        Ok(())
    }
}
