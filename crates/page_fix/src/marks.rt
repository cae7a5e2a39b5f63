//! Marks for the pages of an object.

ghost use Rattle.std.specs.Prelude.{◌≡◌, ◌<◌, [], IfOk, false, not, length, map, slice_index_or, slice_set};
ghost use Rattle.std.specs.List.{filter, list_any, range_with_len};
ghost use Rattle.lx_types.specs.Sound.{IsNumberOf};
ghost use Rattle.page_fix.specs.Fixable.{is_page};
ghost use Rattle.page_fix.specs.Rights.{fixable_row, marked_pages};

use crate::fixable::is_fixable;
use lx_types::{Module, NoMemory, PageId};
use smallvec::SmallVec;
use std::alloc::Global;
use std::default::MadeWith;
use std::marker::Model;

/// How many marks lie in the value itself: as many as beside a length fit where more keep their pointer. Most objects have as few
/// pages, and their marks take no memory of their own.
const IN_PLACE: usize = 16;

/// A mark for each page of an object.
#[derive(Drop)]
pub struct Marks {
    marks: SmallVec<bool, IN_PLACE>,
}

impl Model for Marks {
    ghost use Rattle.std.specs.Prelude.{Bool, List};

    ghost Value = { List Bool };

    ghost view = { λ m. m.marks.items };
}

impl Marks {
    /// Marks the pages of an object that are fixed once for all processes.
    pub fn of(alloc: Global, m: &Module, object: u32) -> Result<Marks, NoMemory>
        requires { IsNumberOf object (length m.now.objects) }
        ensures { IfOk result (λ marks. marks ≡ fixable_row m.now object) }
    {
        let pages = m.pages(object);
        let mut marks = SmallVec::with_capacity(alloc, pages as usize)?;
        for page in 0..pages {
            marks.push(is_fixable(m, PageId { object, page }))?;
        }
        Ok(Marks { marks })
    }

    /// Takes the mark of a page away, and says whether there was one.
    pub fn take(&mut self, page: u32) -> bool
        ensures had { result ≡ slice_index_or self.old page false }
        ensures taken { self.new ≡ slice_set self.old page false }
    {
        match self.marks.get_mut(page as usize) {
            Some(mark) => {
                let had = *mark;
                *mark = false;
                had
            }
            None => false,
        }
    }
}

// No mark, of an object without pages.
impl MadeWith<Global> for Marks {
    ghost is_made_with = { λ m. m ≡ [] };

    fn made_with(alloc: Global) -> Marks {
        Marks {
            marks: SmallVec::new(alloc),
        }
    }
}

/// Takes the mark of a page away, in rows by object, and says whether there was one.
pub fn take_mark(rows: &mut [Marks], p: PageId) -> bool
    ensures had { result ≡ list_any (is_page p) (marked_pages rows.old) }
    ensures taken { marked_pages rows.new ≡ filter (λ q. not (is_page p q)) (marked_pages rows.old) }
{
    let number = p.object as usize;
    if number == 0 || number > rows.len() {
        return false;
    }
    rows[number - 1].take(p.page)
}
