//! How many pages and fixups a module has.

ghost use Rattle.std.specs.Prelude.{◌≡◌, ◌+◌, IfOk, length, sum_by};

use lx_types::{Fix, NoMemory, Seq};

// The sum, where it has 32 bits. What counts further is want of memory: no number could tell it.
fn sum(count: u32, more: usize) -> Result<u32, NoMemory>
    ensures { IfOk result (λ n. n ≡ count + more) }
{
    match u32::try_from(more) {
        Err(_) => Err(NoMemory),
        Ok(more) => match count.checked_add(more) {
            None => Err(NoMemory),
            Some(count) => Ok(count),
        },
    }
}

/// The number of pages of all objects.
pub fn page_count(objects: &[Seq<Seq<Fix>>]) -> Result<u32, NoMemory>
    ensures { IfOk result (λ count. count ≡ sum_by length objects.now) }
{
    let mut count = 0;
    for pages in objects {
        count = sum(count, pages.as_slice().len())?;
    }
    Ok(count)
}

// Adds the numbers of fixups of pages.
fn add_sources(count: u32, pages: &[Seq<Fix>]) -> Result<u32, NoMemory>
    ensures { IfOk result (λ n. n ≡ count + sum_by length pages.now) }
{
    let mut count = count;
    for fixes in pages {
        count = sum(count, fixes.as_slice().len())?;
    }
    Ok(count)
}

/// The number of fixups of all pages. One that stands on two pages counts on each.
pub fn source_count(objects: &[Seq<Seq<Fix>>]) -> Result<u32, NoMemory>
    ensures { IfOk result (λ count. count ≡ sum_by (λ pages. sum_by length pages) objects.now) }
{
    let mut count = 0;
    for pages in objects {
        count = add_sources(count, pages.as_slice())?;
    }
    Ok(count)
}
