//! The words of modules, page by page.

ghost use Rattle.std.specs.Prelude.{◌≡◌, ◌*◌, ◌<◌, ◌^◌, IfOk, length, slice_index};
ghost use Rattle.lx_types.specs.Object.{pages_of};
ghost use Rattle.lx_types.specs.Parts.{object_of};
ghost use Rattle.lx_types.specs.Sound.{IsNumberOf};
ghost use Rattle.lx_model.specs.Library.{module_of};
ghost use Rattle.lx_model.specs.ModuleBytes.{fixed_page};
ghost use Rattle.gen_model.specs.Sums.{word_at};
ghost use Rattle.gen_core.specs.Fixing.{library_words, module_words, object_words, page_words, total};

use lx_types::{Bases, Module, NoMemory, PAGE_LEN, PageBytes, PageId};
use module_pages::ModulePages;
use page_fix::{OwnLibrary, Steps};
use std::alloc::Global;
use std::sync::ledger::Ledger;

/// How many words a page has.
const WORDS: usize = 1_024;

// A 32-bit word of a page.
fn word_of(bytes: &PageBytes, i: usize) -> u32
    requires { i < 1024 }
    ensures { result ≡ word_at (slice_index bytes.now) (4 * i) }
{
    let at = 4 * i;
    u32::from_le_bytes([bytes[at], bytes[at + 1], bytes[at + 2], bytes[at + 3]])
}

// The sum of the 32-bit words of a page.
fn sum_of_page(bytes: &PageBytes) -> u32
    ensures { result ≡ total (page_words (slice_index bytes.now)) }
{
    let mut sum = 0u32;
    for i in 0..WORDS {
        sum = sum.wrapping_add(word_of(bytes, i));
    }
    sum
}

// The sum of the words of a page.
fn sum_of<L: Ledger>(
    alloc: Global,
    pages: &ModulePages<'_>,
    p: PageId,
    steps: &mut Steps<L>,
) -> Result<u32, NoMemory>
    requires object { IsNumberOf p.object (length (module_of pages.now.library pages.now.«module»).objects) }
    requires page { p.page < pages_of (object_of (module_of pages.now.library pages.now.«module») p.object) }
    ensures { IfOk result (λ sum. sum ≡ total (page_words (slice_index (fixed_page pages.now.library pages.now.«module» pages.now.bases p)))) }
{
    let buffer = Box::new(alloc, [0; PAGE_LEN])?;
    let page = pages.page(p, buffer, steps);
    Ok(sum_of_page(&page))
}

// The sum of the words of an object of a module, whose pages are given.
fn sum_of_object<L: Ledger>(
    alloc: Global,
    module: &Module,
    pages: &ModulePages<'_>,
    object: u32,
    steps: &mut Steps<L>,
) -> Result<u32, NoMemory>
    requires module { «module».now ≡ module_of pages.now.library pages.now.«module» }
    requires number { IsNumberOf object (length «module».now.objects) }
    ensures { IfOk result (λ sum. sum ≡ total (object_words pages.now.library pages.now.bases pages.now.«module» object)) }
{
    let mut sum = 0u32;
    for page in 0..module.pages(object) {
        sum = sum.wrapping_add(sum_of(alloc, pages, PageId { object, page }, steps)?);
    }
    Ok(sum)
}

// The sum of the words of a module of a library at the bases of a load.
fn sum_of_module<L: Ledger>(
    alloc: Global,
    lib: &OwnLibrary,
    bases: &Bases,
    number: u32,
    steps: &mut Steps<L>,
) -> Result<u32, NoMemory>
    requires there { number < length lib.now }
    requires few { length (module_of lib.now number).objects < 2 ^ 32 }
    ensures { IfOk result (λ sum. sum ≡ total (module_words lib.now bases.now number)) }
{
    let module = lib.library().module(number);
    let pages = ModulePages::of(lib, bases, number);
    let mut sum = 0u32;
    for before in 0..module.objects().len() as u32 {
        sum = sum.wrapping_add(sum_of_object(alloc, module, &pages, before + 1, steps)?);
    }
    Ok(sum)
}

/// The sum of all 32-bit words of all pages of a library that nobody shares at the bases of a load, modulo 2^32: each page is
/// fixed, and its words are added. It takes time that grows with pages and record sources, and the memory of one page.
pub fn sum_of_words<L: Ledger>(
    alloc: Global,
    lib: &OwnLibrary,
    bases: &Bases,
    steps: &mut Steps<L>,
) -> Result<u32, NoMemory>
    ensures { IfOk result (λ sum. sum ≡ total (library_words lib.now bases.now)) }
{
    let mut sum = 0u32;
    for module in 0..lib.library().len() {
        sum = sum.wrapping_add(sum_of_module(alloc, lib, bases, module, steps)?);
    }
    Ok(sum)
}
