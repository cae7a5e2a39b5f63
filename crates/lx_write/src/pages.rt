//! The pages of objects: the object page table and the data of pages ("Object Page Table", "Iterated
//! Data Pages").

ghost use Rattle.std.specs.Prelude.{◌≡◌, ◌++◌, ◌≤◌, [], ◌∷◌, List, IfOk, true, length, map, drop};
ghost use Rattle.std.specs.List.{flat_map};
ghost use Rattle.lx_types.specs.declared.object.TheConstants.{PAGE_SIZE};
ghost use Rattle.lx_model.specs.Packed.{data_of, filled};
ghost use Rattle.image_model.specs.Image.{PageForm};
ghost use Rattle.image_model.specs.PageForms.{pages_in, form_of_page};
ghost use Rattle.image_model.specs.PageTables.{page_head, form_data, page_heads_from};
ghost use Rattle.lx_write.specs.Growing.{with_pages};

use lx_iter::pack;
use lx_types::{Bytes, NoMemory, PAGE_LEN, PageBytes, PageHead, PageKind};
use std::alloc::Global;

/// The entries of pages, with places in the data of all pages, and that data.
#[derive(Drop)]
pub struct Pages {
    pub heads: Vec<PageHead>,
    pub contents: Vec<u8>,
}

const ZEROS: PageBytes = [0; PAGE_LEN];

// Whether a page has no byte but zeros.
fn is_zero(page: &[u8]) -> bool
    ensures { result ≡ true → data_of page.now ≡ [] }
{
    page.len() <= ZEROS.len() && page == &ZEROS[..page.len()]
}

// The bytes of a page up to the last one that is not 0. A page of zeros is not walked byte by byte.
fn data_of(page: &[u8]) -> &[u8]
    ensures same { result.now ≡ data_of page.now }
    ensures within { length result.now ≤ length page.now }
{
    if is_zero(page) {
        return &page[..0];
    }
    let mut end = page.len();
    while end > 0 && page[end - 1] == 0 {
        end -= 1;
    }
    &page[..end]
}

// Puts bytes at the front of others.
fn put_front(into: &mut [u8], bytes: &[u8])
    requires { length bytes.now ≤ length into.old }
    ensures { into.new ≡ bytes.now ++ drop (length bytes.now) into.old }
{
    into[..bytes.len()].copy_from_slice(bytes);
}

// These bytes, and zeros up to the page's end.
fn filled(bytes: &[u8]) -> PageBytes
    requires { length bytes.now ≤ PAGE_SIZE }
    ensures { result ≡ filled bytes.now }
{
    let mut page = [0; PAGE_LEN];
    put_front(&mut page, bytes);
    page
}

// The entry of a page whose data begins at a place.
fn head_at(kind: PageKind, at: usize, len: usize) -> Result<PageHead, NoMemory>
    ensures { IfOk result (λ head. head ≡ record { kind = kind; at = at; len = len }) }
{
    let (Ok(at), Ok(len)) = (u32::try_from(at), u32::try_from(len)) else {
        return Err(NoMemory);
    };
    Ok(PageHead { kind, at, len })
}

impl Pages {
    // Adds the data of a page, and its entry.
    fn put(&mut self, kind: PageKind, bytes: &[u8]) -> Result<(), NoMemory>
        ensures { IfOk result (λ _.
            (self.new.heads.items ≡ self.old.heads.items
            ++ record { kind = kind; at = length self.old.contents.items; len = length bytes.now } ∷ [])
            × (self.new.contents.items ≡ self.old.contents.items ++ bytes.now)) }
    {
        self.heads
            .push(head_at(kind, self.contents.len(), bytes.len())?)?;
        self.contents.extend_from_slice(bytes)?;
        Ok(())
    }

    // Adds a page, iterated where its groups are shorter than its data.
    fn add(&mut self, alloc: Global, page: &[u8]) -> Result<(), NoMemory>
        requires { length page.now ≤ PAGE_SIZE }
        ensures { IfOk result (λ _.
            (self.new.heads.items ≡ self.old.heads.items
            ++ page_head (length self.old.contents.items) (form_of_page page.now) ∷ [])
            × (self.new.contents.items ≡ self.old.contents.items ++ form_data (form_of_page page.now))) }
    {
        let data = data_of(page);
        if data.is_empty() {
            self.heads.push(PageHead {
                kind: PageKind::Zero,
                at: 0,
                len: 0,
            })?;
            return Ok(());
        }
        match pack(alloc, &filled(page))? {
            Some(groups) => self.put(PageKind::Iterated, groups.as_slice()),
            None => self.put(PageKind::Plain, data),
        }
    }

    // Adds the pages of an object.
    fn add_object(&mut self, alloc: Global, bytes: &[u8]) -> Result<(), NoMemory>
        ensures { IfOk result (λ _. (others : List PageForm)
            → with_pages self.new others
            ≡ with_pages self.old (map form_of_page (pages_in bytes.now) ++ others)) }
    {
        let mut at = 0;
        while at < bytes.len() {
            let left = &bytes[at..];
            let len = left.len().min(PAGE_LEN);
            self.add(alloc, &left[..len])?;
            at += len;
        }
        Ok(())
    }
}

/// The pages of objects with these bytes.
pub fn pages_of(alloc: Global, objects: &[Bytes]) -> Result<Pages, NoMemory>
    ensures heads { IfOk result (λ pages. pages.heads.items
        ≡ page_heads_from 0 (map form_of_page (flat_map pages_in objects.now))) }
    ensures contents { IfOk result (λ pages. pages.contents.items
        ≡ flat_map form_data (map form_of_page (flat_map pages_in objects.now))) }
{
    let mut pages = Pages {
        heads: Vec::new(alloc),
        contents: Vec::new(alloc),
    };
    for bytes in objects {
        pages.add_object(alloc, bytes.as_slice())?;
    }
    Ok(pages)
}
