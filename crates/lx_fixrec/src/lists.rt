//! Which sources of a page may stand in one list.

ghost use Rattle.std.specs.Prelude.{◌≡◌, ◌<◌, ℕ, None, Some, IfOk, IfSome, slice_get};
ghost use Rattle.indexmap.specs.IndexMap.{index_map_len};
ghost use Rattle.lx_model.specs.JoinedRecords.{crosses};
ghost use Rattle.lx_fixrec.specs.Lists.{shared_of, first_in, Puts};
ghost use Rattle.lx_fixrec.specs.declared.lists.Shared.{Shared};

use crate::sources::{code_of, source_size};
use indexmap::IndexMap;
use lx_types::{Fix, FixTarget, NoMemory, PAGE_SIZE};
use std::alloc::Global;

/// What the sources of one list share; they differ in their offsets alone.
#[derive(Clone, Copy, PartialEq, Eq, Hash)]
pub struct Shared {
    pub code: u8,
    pub alias: bool,
    pub target: FixTarget,
    pub additive: u32,
}

/// What a source shares with those of its list.
pub fn shared_of(fix: &Fix) -> Shared
    ensures { result ≡ shared_of fix.now }
{
    Shared {
        code: code_of(fix.source),
        alias: fix.alias,
        target: fix.target,
        additive: fix.additive,
    }
}

/// Whether a source begins before its page or ends past it.
pub fn crosses(fix: &Fix) -> bool
    ensures { result ≡ crosses fix.now }
{
    fix.offset < 0 || fix.offset > PAGE_SIZE as i32 - source_size(fix.source) as i32
}

/// The place of the first of some sources of a page, by what sources share.
#[derive(Drop)]
pub struct Firsts {
    places: IndexMap<Shared, usize>,
    // Where in the map the source stands that was put last.
    last: usize,
}

impl Firsts {
    /// No sources. It takes no memory.
    pub fn new(alloc: Global) -> Firsts
        ensures { (k : Shared) → first_in result k ≡ None }
    {
        Firsts {
            places: IndexMap::new(alloc),
            last: 0,
        }
    }

    // The place of the source that was put last, where it shares this. It looks for nothing.
    fn last_with(&self, shared: &Shared) -> Option<usize>
        ensures first { IfSome result (λ first. Some first ≡ first_in self.now shared.now) }
        ensures place { IfSome result (λ first. slice_get self.now.places.entries self.now.last ≡ Some (shared.now, first)) }
    {
        match self.places.get_index(self.last) {
            Some((key, first)) if *key == *shared => Some(*first),
            _ => None,
        }
    }

    // Puts a place for the source that was put last.
    fn put_at_last(&mut self, place: usize)
        requires { self.old.last < index_map_len self.old.places }
        ensures { (shared : Shared) (first : ℕ) → slice_get self.old.places.entries self.old.last ≡ Some (shared, first)
            → Some first ≡ first_in self.old shared → Puts self.old shared place (Some first) self.new }
    {
        let (_key, first) = self.places.pair_mut(self.last);
        *first = place;
    }

    /// Puts the place of a source that stands before the others, and answers the first of those that share the same.
    pub fn put(&mut self, shared: Shared, place: usize) -> Result<Option<usize>, NoMemory>
        ensures { IfOk result (λ before. Puts self.old shared place before self.new) }
    {
        if let Some(before) = self.last_with(&shared) {
            self.put_at_last(place);
            return Ok(Some(before));
        }
        let (at, before) = self.places.insert_full(shared, place)?;
        self.last = at;
        Ok(before)
    }
}
