//! Rights to fix the pages of a residence: one for each page that is fixed once for all processes.

ghost use Rattle.std.specs.Prelude.{◌≡◌, ◌<◌, length, map, not, is_some, IfOk, IfSome};
ghost use Rattle.std.specs.List.{filter, list_any, range_with_len};
ghost use Rattle.std.specs.Arc.{arc_value};
ghost use Rattle.lx_model.specs.Library.{module_of};
ghost use Rattle.page_fix.specs.Fixable.{is_page, fixable_pages};
ghost use Rattle.page_fix.specs.Rights.{fixable_row};

use crate::marks::{Marks, take_mark};
use lx_types::{Module, NoMemory, PageId, count};
use mod_graph::Library;
use smallvec::SmallVec;
use std::alloc::Global;
use std::marker::Model;
use std::sync::Arc;

/// The right to fix a page of a residence. It can be neither copied nor let go: `fix_page` alone takes it.
pub struct FixRight {
    serial: u64,
    page: PageId,
}

impl Model for FixRight {
    ghost use Rattle.page_fix.specs.Rights.{PageRight};

    ghost Value = { PageRight };

    ghost view = { λ r. record { serial = r.serial; page = r.page } };
}

impl FixRight {
    // What it is the right to, once it is spent.
    pub(crate) fn spend(self) -> (u64, PageId)
        ensures { (result.0 ≡ self.serial) × (result.1 ≡ self.page) }
    {
        let FixRight { serial, page } = self;
        (serial, page)
    }
}

/// How many objects have their marks in the rights themselves. Few modules have more, whose rows take memory of their own.
const ROWS_IN_PLACE: usize = 2;

/// The rights of a residence that are left: a mark for each page of the module.
pub struct Rights {
    serial: u64,
    rows: SmallVec<Marks, ROWS_IN_PLACE>,
}

// Dropped by a call, as lists are (`Seq`).
impl Drop for Rights {
    fn drop(self) {
        let Rights { serial: _, rows } = self;
        drop(rows);
    }
}

impl Model for Rights {
    ghost use Rattle.page_fix.specs.Rights.{PageRights, marked_pages};

    ghost Value = { PageRights };

    ghost view = { λ r. record { serial = r.serial; left = marked_pages r.rows.items } };
}

// The marks of each object.
fn rows_of(alloc: Global, m: &Module) -> Result<SmallVec<Marks, ROWS_IN_PLACE>, NoMemory>
    ensures { IfOk result (λ rows. rows.items ≡ map (fixable_row m.now) (range_with_len 1 (length m.now.objects))) }
{
    let objects = m.objects().len();
    let mut rows = SmallVec::with_capacity(alloc, objects)?;
    for before in 0..count(objects)? {
        rows.push(Marks::of(alloc, m, before + 1)?)?;
    }
    Ok(rows)
}

impl Rights {
    /// A right for each page of module `m` that is of a Code or Shared object and not invalid. It looks at each page of the
    /// module once. Who has the library as its processes have it (`LentLibrary`) has no `Arc` of it, and makes no rights.
    pub fn make(alloc: Global, serial: u64, lib: &Arc<Library>, m: u32) -> Result<Rights, NoMemory>
        requires { m < length (arc_value lib.now) }
        ensures { IfOk result (λ r. (r.serial ≡ serial) × (r.left ≡ fixable_pages (module_of (arc_value lib.now) m))) }
    {
        let rows = rows_of(alloc, lib.module(m))?;
        Ok(Rights { serial, rows })
    }

    /// The right to fix a page, where it is left. It takes no memory, and the same time for each page.
    pub fn take(&mut self, p: PageId) -> Option<FixRight>
        ensures given { is_some result ≡ list_any (is_page p) self.old.left }
        ensures right { IfSome result (λ f. (f.serial ≡ self.old.serial) × (f.page ≡ p)) }
        ensures left { self.new ≡ record self.old { left = filter (λ q. not (is_page p q)) self.old.left } }
    {
        if !take_mark(self.rows.as_mut_slice(), p) {
            return None;
        }
        Some(FixRight {
            serial: self.serial,
            page: p,
        })
    }
}
