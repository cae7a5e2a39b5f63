//! Bytes that are copied out of mapped pages.

ghost use Rattle.std.specs.Prelude.{◌≡◌, ◌≤◌, ◌+◌, ℕ, IfSome, MatchOption, None, find, is_none, length, map, slice_index};
ghost use Rattle.std.specs.List.{range_with_len};
ghost use Rattle.load_model.specs.Memory.{page, pages_over};
ghost use Rattle.load_model.specs.Places.{LiesInPage};
ghost use Rattle.write_overlay.specs.Laid.{replaced};
ghost use Rattle.process_pages.specs.PageRows.{place_in};
ghost use Rattle.process_pages.specs.Reading.{IsThere, AreThere, bytes_at, byte_by};

use crate::mapped_page::MappedPage;
use crate::page_rows::PageRows;
use load_model::Place;
use lx_types::{PAGE_LEN, PAGE_SIZE, PageBytes, PageId};

// Puts a run in the place of other bytes.
fn put(into: &mut [u8], place: usize, run: &[u8])
    requires { place + length run.now ≤ length into.old }
    ensures { (k : ℕ) → slice_index into.new k ≡ replaced place run.now into.old k }
{
    let end = place + run.len();
    into[place..end].copy_from_slice(run);
}

// The bytes of a page that is mapped.
fn bytes_of<'a>(pages: &'a [MappedPage], places: &PageRows, p: PageId) -> &'a PageBytes
    requires { IsThere places.now pages.now p }
    ensures bytes { result.now ≡ bytes_at pages.now (place_in places.now p) }
    ensures length { length result.now ≡ PAGE_LEN }
{
    let Some(place) = places.get(p) else {
        unreachable!()
    };
    pages[place].bytes()
}

/// Copies the bytes of a place out of pages that are mapped, page by page.
pub fn copy_out(pages: &[MappedPage], places: &PageRows, place: &Place, into: &mut [u8])
    requires fits { length into.old ≡ place.now.len }
    requires there { AreThere places.now pages.now place.now.object place.now.offset place.now.len }
    ensures { into.new ≡ map (byte_by places.now pages.now place.now.object) (range_with_len place.now.offset place.now.len) }
{
    let end = place.len as usize;
    let mut done = 0;
    while done < end {
        let at = place.offset as usize + done;
        let within = at % PAGE_LEN;
        let len = (PAGE_LEN - within).min(end - done);
        let p = PageId {
            object: place.object,
            page: (at / PAGE_LEN) as u32,
        };
        let bytes = bytes_of(pages, places, p);
        put(into, done, &bytes[within..within + len]);
        done += len;
    }
}

/// The bytes of a place where they stand, if there are some and they lie in one page that is mapped.
pub fn run_at<'a>(pages: &'a [MappedPage], places: &PageRows, place: &Place) -> Option<&'a [u8]>
    ensures none { MatchOption result
        (LiesInPage place.now → AreThere places.now pages.now place.now.object place.now.offset place.now.len → place.now.len ≡ 0) (λ _. Unit {0}) }
    ensures length { IfSome result (λ run. length run.now ≡ place.now.len) }
    ensures mapped { IfSome result (λ run.
        find (λ n. is_none (place_in places.now (page place.now.object n))) (pages_over place.now.offset place.now.len) ≡ None) }
    ensures bytes { IfSome result (λ run. run.now ≡ map (byte_by places.now pages.now place.now.object) (range_with_len place.now.offset place.now.len)) }
{
    let within = place.offset as usize % PAGE_LEN;
    let len = place.len as usize;
    if len == 0 || within + len > PAGE_LEN {
        return None;
    }
    let p = PageId {
        object: place.object,
        page: place.offset / PAGE_SIZE,
    };
    let page = pages.get(places.get(p)?)?;
    Some(&page.bytes()[within..within + len])
}
