//! Writes that are put into mapped pages.

ghost use Rattle.std.specs.Prelude.{◌≡◌, ◌<◌, ◌≤◌, ◌+◌, ◌*◌, ℕ, List, map};
ghost use Rattle.page_frames.specs.Residences.{ResidenceFor};
ghost use Rattle.load_model.specs.Memory.{page};
ghost use Rattle.load_model.specs.WrittenPages.{written_over};
ghost use Rattle.process_pages.specs.ReachedResidences.{residence_in, ArePagesOf, StandOnce};
ghost use Rattle.process_pages.specs.Writing.{written_at, covered_count, covered_end, IsFound, IsWriteTo};

use crate::mapped_page::MappedPage;
use crate::reached_residences::ReachedResidence;
use crate::spare_pages::SparePages;
use load_model::Place;
use lx_types::{PAGE_LEN, PAGE_SIZE, PageId};
use write_overlay::Write;

// The number after that of the last page that a place covers.
fn covered_end(place: &Place) -> u32
    ensures { result ≡ covered_end place.now }
{
    (place.offset as usize + place.len as usize).div_ceil(PAGE_LEN) as u32
}

/// How many pages of its object a place covers.
pub fn covered_count(place: &Place) -> usize
    ensures { result ≡ covered_count place.now }
{
    (covered_end(place) as usize).saturating_sub((place.offset / PAGE_SIZE) as usize)
}

// Puts a write into a page of its object, where that is mapped.
fn put_at(
    pages: &mut [MappedPage],
    reached: &ReachedResidence,
    p: PageId,
    write: &Write,
    spares: &mut SparePages,
)
    requires object { write.now.object ≡ p.object }
    requires found { IsFound (residence_in reached.now).serial reached.now.places pages.old p }
    requires once { StandOnce pages.old }
    requires spare { 0 < spares.old }
    ensures left { spares.old ≤ spares.new + 1 }
    ensures put { pages.new ≡ map (written_at (residence_in reached.now).serial p write.now) pages.old }
{
    if let Some(place) = reached.places.get(p) {
        pages[place].put(write, spares);
    }
}

/// Puts a write to a place of a residence into the pages that are mapped. It looks only at those that the place covers. Those
/// that others have too are copied first, into spare buffers.
pub fn put_covered(
    pages: &mut [MappedPage],
    reached: &ReachedResidence,
    place: &Place,
    write: &Write,
    spares: &mut SparePages,
)
    requires place { IsWriteTo place.now write.now }
    requires pages { (rs : List ResidenceFor) × ArePagesOf rs pages.old }
    requires found { (n : ℕ) → n * PAGE_SIZE < place.now.offset + place.now.len
        → IsFound (residence_in reached.now).serial reached.now.places pages.old (page place.now.object n) }
    requires spares { covered_count place.now ≤ spares.old }
    ensures { pages.new ≡ map (written_over (residence_in reached.now).serial write.now) pages.old }
{
    for page in place.offset / PAGE_SIZE..covered_end(place) {
        let p = PageId {
            object: place.object,
            page,
        };
        put_at(pages, reached, p, write, spares);
    }
}
