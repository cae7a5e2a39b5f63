//! Where the pages of a residence stand among those that a process has mapped, found by two look-ups in arrays.

ghost use Rattle.std.specs.Prelude.{◌≡◌, ◌<◌, ◌-◌, ℕ, [], None, Some, IfOk, length, map, replicate, slice_index_or, slice_set};
ghost use Rattle.lx_types.specs.Object.{pages_of};
ghost use Rattle.lx_types.specs.Parts.{object_of};
ghost use Rattle.lx_types.specs.Sound.{IsNumberOf};
ghost use Rattle.process_pages.specs.PageRows.{place_in, Cover, HaveNone};

use lx_types::{Module, NoMemory, PageId, count};
use smallvec::SmallVec;
use std::alloc::Global;
use std::default::MadeWith;
use std::marker::Model;

/// How many places lie in a row itself. More than that take memory of their own.
const PLACES_IN_ROW: usize = 2;

/// How many objects have their rows in the value itself. Few modules have more, whose rows take memory of their own.
const ROWS_IN_PLACE: usize = 2;

/// The places of an object's pages.
#[derive(Drop)]
struct PageRow {
    places: SmallVec<Option<usize>, PLACES_IN_ROW>,
}

impl Model for PageRow {
    ghost use Rattle.std.specs.Prelude.{List, Option, ℕ};

    ghost Value = { List (Option ℕ) };

    ghost view = { λ r. r.places.items };
}

// No place, of an object without pages.
impl MadeWith<Global> for PageRow {
    ghost is_made_with = { λ r. r ≡ [] };

    fn made_with(alloc: Global) -> PageRow {
        PageRow {
            places: SmallVec::new(alloc),
        }
    }
}

impl PageRow {
    // No place, for so many pages.
    fn new(alloc: Global, pages: u32) -> Result<PageRow, NoMemory>
        ensures { IfOk result (λ row. row ≡ replicate pages None) }
    {
        let places = SmallVec::from_elem(alloc, None, pages as usize)?;
        Ok(PageRow { places })
    }

    // The place of a page.
    fn get(&self, page: u32) -> Option<usize>
        ensures { result ≡ slice_index_or self.now page None }
    {
        match self.places.as_slice().get(page as usize) {
            Some(place) => *place,
            None => None,
        }
    }

    // Puts a page at a place.
    fn put(&mut self, page: u32, place: usize)
        requires { page < length self.old }
        ensures { self.new ≡ slice_set self.old page (Some place) }
    {
        let places = self.places.as_mut_slice();
        places[page as usize] = Some(place);
    }

    // Takes all pages away.
    fn clear(&mut self)
        ensures { self.new ≡ replicate (length self.old) None }
    {
        self.places.as_mut_slice().fill(None);
    }
}

/// The places of the pages of a module's objects.
pub struct PageRows {
    rows: SmallVec<PageRow, ROWS_IN_PLACE>,
}

// Dropped by a call, as lists are (`Seq`).
impl Drop for PageRows {
    fn drop(self) {
        let PageRows { rows } = self;
        drop(rows);
    }
}

impl Model for PageRows {
    ghost use Rattle.process_pages.specs.PageRows.{PagePlaces};

    ghost Value = { PagePlaces };

    ghost view = { λ r. r.rows.items };
}

impl PageRows {
    /// No page of the module has a place.
    pub fn new(alloc: Global, m: &Module) -> Result<PageRows, NoMemory>
        ensures { IfOk result (λ rows. HaveNone m.now rows) }
    {
        let objects = m.objects().len();
        let mut rows = SmallVec::with_capacity(alloc, objects)?;
        for before in 0..count(objects)? {
            rows.push(PageRow::new(alloc, m.pages(before + 1))?)?;
        }
        Ok(PageRows { rows })
    }

    /// The place of a page. Objects count from 1.
    pub fn get(&self, p: PageId) -> Option<usize>
        ensures { result ≡ place_in self.now p }
    {
        let rows = self.rows.as_slice();
        let row = rows.get((p.object as usize).saturating_sub(1))?;
        row.get(p.page)
    }
}

impl PageRows {
    /// Puts a page at a place.
    pub fn put(&mut self, p: PageId, place: usize)
        requires object { p.object - 1 < length self.old }
        requires page { p.page < length (slice_index_or self.old (p.object - 1) []) }
        ensures { self.new ≡ with_place self.old p place }
    {
        let rows = self.rows.as_mut_slice();
        rows[(p.object as usize).saturating_sub(1)].put(p.page, place);
    }
}

// Takes all places of some rows away.
fn clear_rows(rows: &mut [PageRow])
    ensures { rows.new ≡ without_any rows.old }
{
    for k in 0..rows.len() {
        rows[k].clear();
    }
}

impl PageRows {
    /// Takes all places away.
    pub fn clear(&mut self)
        ensures { self.new ≡ without_any self.old }
    {
        clear_rows(self.rows.as_mut_slice());
    }

    // Whether there is a number for the page.
    fn has(&self, p: PageId) -> bool
        ensures { result ≡ has_number self.now p }
    {
        if p.object == 0 {
            return false;
        }
        match self
            .rows
            .as_slice()
            .get((p.object as usize).saturating_sub(1))
        {
            Some(row) => (p.page as usize) < row.places.len(),
            None => false,
        }
    }

    /// Puts a page at a place, where there is a number for it and no place yet.
    pub fn put_first(&mut self, p: PageId, place: usize)
        ensures { self.new ≡ with_first_place self.old p place }
    {
        if self.has(p) && self.get(p).is_none() {
            self.put(p, place);
        }
    }
}

ghost use Rattle.process_pages.specs.PageRows.{with_place, without_any, has_number, with_first_place};
