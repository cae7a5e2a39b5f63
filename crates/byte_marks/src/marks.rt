//! The marks of all rows.

ghost use Rattle.std.specs.Prelude.{◌≡◌, ℕ, ◌+◌, ◌*◌, ◌/◌, ◌%◌, ◌^◌, ◌<◌, ◌≤◌, ◌||◌, ◌&&◌, ◌==◌, false, IsTrue, ◌↔◌, OnOk, OnErr, None, MatchOption, option_copied};
ghost use Rattle.indexmap.specs.IndexMap.{get};
ghost use Rattle.byte_marks.specs.Bits.{HasBit, is_from};
ghost use Rattle.byte_marks.specs.Marks.{HasPage, IsPlaceOf, is_marked, is_page, page_of};
ghost use Rattle.byte_marks.specs.declared.marks.PageAt.{PageAt};

use crate::page::{PAGE, Page};
use indexmap::IndexMap;
use lx_types::NoMemory;
use std::alloc::Global;

const PAGE_BYTES: u64 = PAGE as u64;

/// A page of a row.
#[derive(Clone, Copy, PartialEq, Eq, Hash)]
struct PageAt {
    row: u32,
    page: u32,
}

/// Which bytes of numbered rows are marked.
#[derive(Drop)]
pub struct ByteMarks {
    pages: IndexMap<PageAt, Page>,
    // The place of the page that was marked last, which is mostly the one that is asked for next.
    last: usize,
}

impl ByteMarks {
    /// No byte is marked. It takes no memory.
    pub fn new(alloc: Global) -> ByteMarks
        ensures { (row : ℕ) (x : ℕ) → is_marked result row x ≡ false }
    {
        ByteMarks {
            pages: IndexMap::new(alloc),
            last: 0,
        }
    }

    // A page, and none where no byte of it is marked.
    fn page(&self, at: PageAt) -> Option<&Page>
        ensures { option_copied result ≡ get is_page self.now.pages at }
    {
        if let Some((own, page)) = self.pages.get_index(self.last) {
            if *own == at {
                return Some(page);
            }
        }
        self.pages.get(&at)
    }

    // The place of a page.
    fn place_of(&self, at: PageAt) -> Option<usize>
        ensures { MatchOption result (get is_page self.now.pages at ≡ None) (IsPlaceOf self.now at) }
    {
        if let Some((own, _)) = self.pages.get_index(self.last) {
            if *own == at {
                return Some(self.last);
            }
        }
        let (place, _, _) = self.pages.get_full(&at)?;
        Some(place)
    }

    // Adds a page without marks, unless the page is there.
    fn add_page(&mut self, at: PageAt) -> Result<(), NoMemory>
        ensures marks { (row : ℕ) (x : ℕ) → is_marked self.new row x ≡ is_marked self.old row x }
        ensures there { OnOk result (HasPage self.new at) }
        ensures others { (other : PageAt) → HasPage self.old other → HasPage self.new other }
    {
        match self.page(at) {
            Some(_) => Ok(()),
            None => {
                self.pages.insert(at, Page::new())?;
                Ok(())
            }
        }
    }

    // Adds the pages of the bytes of a row from one up to another.
    fn add_pages(&mut self, row: u32, start: u64, past: u64) -> Result<(), NoMemory>
        requires fits { past < 2 ^ 33 }
        ensures marks { (r : ℕ) (x : ℕ) → is_marked self.new r x ≡ is_marked self.old r x }
        ensures there { OnOk result ((x : ℕ) → start ≤ x → x < past → HasPage self.new (page_of row x)) }
    {
        let mut at = start;
        'pages: while at < past {
            let page = (at / PAGE_BYTES) as u32;
            self.add_page(PageAt { row, page })?;
            at = (at / PAGE_BYTES + 1) * PAGE_BYTES;
        }
        Ok(())
    }

    // Marks bytes of a page that is there.
    fn mark_page(&mut self, at: PageAt, from: u32, past: u32)
        requires there { HasPage self.old at }
        requires within { past ≤ PAGE }
        ensures marks { (row : ℕ) (x : ℕ) → is_marked self.new row x
            ≡ (is_marked self.old row x || (row == at.row && x / 4096 == at.page && is_from from past (x % 4096))) }
        ensures pages { (other : PageAt) → HasPage self.old other → HasPage self.new other }
    {
        if let Some(place) = self.place_of(at) {
            self.last = place;
            if let Some(page) = self.pages.get_index_mut(place) {
                page.mark(from, past);
            }
        }
    }

    // Marks the bytes of a row from one up to another, whose pages are there.
    fn mark_pages(&mut self, row: u32, start: u64, past: u64)
        requires fits { past < 2 ^ 33 }
        requires there { (x : ℕ) → start ≤ x → x < past → HasPage self.old (page_of row x) }
        ensures { (r : ℕ) (x : ℕ) → is_marked self.new r x ≡ (is_marked self.old r x || (r == row && is_from start past x)) }
    {
        let mut at = start;
        'pages: while at < past {
            let page = (at / PAGE_BYTES) as u32;
            let first = at / PAGE_BYTES * PAGE_BYTES;
            let end = u64::min(past, first + PAGE_BYTES);
            self.mark_page(
                PageAt { row, page },
                (at - first) as u32,
                (end - first) as u32,
            );
            at = end;
        }
    }

    /// Marks `len` bytes of a row from `start` on. After want of memory the marks are as they were.
    pub fn mark(&mut self, row: u32, start: u32, len: u32) -> Result<(), NoMemory>
        ensures marked { OnOk result ((r : ℕ) (x : ℕ) → is_marked self.new r x ≡ (is_marked self.old r x || (r == row && is_from start (start + len) x))) }
        ensures err { OnErr result ((r : ℕ) (x : ℕ) → is_marked self.new r x ≡ is_marked self.old r x) }
    {
        let start = u64::from(start);
        let past = start + u64::from(len);
        self.add_pages(row, start, past)?;
        self.mark_pages(row, start, past);
        Ok(())
    }

    // Whether one of the bytes of a page from one up to another is marked.
    fn has_any_in(&self, at: PageAt, from: u32, past: u32) -> bool
        requires { past ≤ PAGE }
        ensures { IsTrue result ↔ HasBit (λ x. is_marked self.now at.row (at.page * 4096 + x)) from past }
    {
        match self.page(at) {
            Some(page) => page.has_any(from, past),
            None => false,
        }
    }

    /// Whether one of `len` bytes of a row from `start` on is marked.
    pub fn has_any(&self, row: u32, start: u32, len: u32) -> bool
        ensures { IsTrue result ↔ HasBit (is_marked self.now row) start (start + len) }
    {
        let mut at = u64::from(start);
        let past = at + u64::from(len);
        'pages: while at < past {
            let page = (at / PAGE_BYTES) as u32;
            let first = at / PAGE_BYTES * PAGE_BYTES;
            let end = u64::min(past, first + PAGE_BYTES);
            if self.has_any_in(
                PageAt { row, page },
                (at - first) as u32,
                (end - first) as u32,
            ) {
                return true;
            }
            at = end;
        }
        false
    }
}
