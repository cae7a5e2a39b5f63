//! The fixup records that are left to the loader, by object and page.

ghost use Rattle.std.specs.Prelude.{◌≡◌, ◌+◌, ◌*◌, ◌<◌, ◌≤◌, ◌∷◌, [], ℕ, List, OnOk, IfOk, map, length, reverse, if◌then◌else◌, ◌==◌, slice_get};
ghost use Rattle.std.specs.List.{range_with_len, enumerate_from};
ghost use Rattle.std.specs.Option.{option_and_then, option_map};
ghost use Rattle.obj_types.specs.Location.{location_len as len_of_location};
ghost use Rattle.link_model.specs.Words.{wrapped};
ghost use Rattle.link_model.specs.Goals.{Internal};
ghost use Rattle.link_model.specs.ImportTables.{import_target};
ghost use Rattle.link_model.specs.Records as records;
ghost use Rattle.link_fix.specs.Shown.{shown, target_shown};
ghost use Rattle.link_fix.specs.Tables.{ArePairs};
ghost use Rattle.link_fix.specs.Paging.{fixes_of, fixes_after, page_in, record_with, records_before, target_among};
ghost use Rattle.obj_types.specs.declared.symbol.Imp.{Imp};

use crate::fixup::{Fixup, Target};
use crate::tables::ImportTables;
use crate::values::is_patched;
use link_model::LaidObject;
use lx_types::{Fix, FixTarget, NoMemory, PAGE_SIZE, Seq, Source};
use obj_types::{
    Imp, LOCATION_BYTE, LOCATION_FAR_16, LOCATION_FAR_32, LOCATION_LOADER_16, LOCATION_OFFSET_16,
    LOCATION_SELECTOR, location_len,
};
use std::alloc::Global;
use std::mem::replace;

/// Records by the number of an object and the number of a page, which counts from 0. Those of a page stand from the last to
/// the first, since fixups are taken from the last to the first.
pub(crate) struct PageFixes {
    rows: Vec<Vec<Vec<Fix>>>,
}

// Dropped by a call, as lists are (`Seq`).
impl Drop for PageFixes {
    fn drop(self) {
        let PageFixes { rows } = self;
        drop(rows);
    }
}

fn source_of(q: &Fixup) -> Source
    ensures { result ≡ records.source_of (shown q.now) }
{
    match q.loc {
        LOCATION_BYTE => Source::Byte,
        LOCATION_OFFSET_16 | LOCATION_LOADER_16 => Source::Off16,
        LOCATION_SELECTOR => Source::Sel,
        LOCATION_FAR_16 => Source::Far16,
        LOCATION_FAR_32 => Source::Far32,
        _ if q.selfrel => Source::Self32,
        _ => Source::Off32,
    }
}

// The selector of a 16:16 pointer, and one in a 16-bit segment, is the alias's.
fn has_alias(q: &Fixup) -> bool
    ensures { result ≡ records.has_alias (shown q.now) }
{
    q.loc == LOCATION_FAR_16 || q.loc == LOCATION_SELECTOR && q.narrow
}

fn sum(a: u32, b: u32) -> u32
    ensures { result ≡ wrapped (a + b) }
{
    a.wrapping_add(b)
}

// Where the record of a place in the link leads, and what is added there: a selector has no offset, and an additive
// where the place is 64 KiB or more into its object.
fn internal_target(q: &Fixup, object: u32, offset: u32) -> (FixTarget, u32)
    ensures { Some result ≡ target_among [] [] (shown q.now) (Internal object offset) }
{
    let offset = sum(offset, q.added);
    if q.loc == LOCATION_SELECTOR {
        let additive = if 0x1_0000 <= offset { offset } else { 0 };
        (FixTarget::Internal { object, offset: 0 }, additive)
    } else {
        (FixTarget::Internal { object, offset }, 0)
    }
}

// Where the record of an entry point leads, and what is added there: this number, and 0 for what stands in the location.
fn entry_target(
    alloc: Global,
    imports: &[Imp],
    tables: &ImportTables,
    slot: u32,
    added: u32,
) -> Result<Option<(FixTarget, u32)>, NoMemory>
    ensures { IfOk result (λ target. (pairs : List Imp) → ArePairs tables.now pairs → target
        ≡ option_map (λ t. (t, wrapped (added + 0))) (option_and_then (import_target pairs) (slice_get imports.now slot))) }
{
    match imports.get(slot as usize) {
        None => Ok(None),
        Some(pair) => match tables.target_of(alloc, pair)? {
            None => Ok(None),
            Some(target) => Ok(Some((target, added))),
        },
    }
}

/// Where a fixup's record leads, and what is added there. There is none for a constant, nor for an entry point that is
/// not in the tables.
pub fn target_of(
    alloc: Global,
    imports: &[Imp],
    tables: &ImportTables,
    q: &Fixup,
) -> Result<Option<(FixTarget, u32)>, NoMemory>
    ensures { IfOk result (λ target. (pairs : List Imp) → ArePairs tables.now pairs →
        target ≡ target_among imports.now pairs (shown q.now) (target_shown q.now.target)) }
{
    match q.target {
        Target::Internal { object, offset } => Ok(Some(internal_target(q, object, offset))),
        Target::Constant { value: _ } => Ok(None),
        Target::Entry { slot } => {
            let target = entry_target(alloc, imports, tables, slot, q.added)?;
            Ok(target)
        }
    }
}

// The record on a page that has a byte of the field.
fn record_at(q: &Fixup, page: u32, target: (FixTarget, u32)) -> Fix
    requires begun { page * PAGE_SIZE ≤ q.now.offset + PAGE_SIZE }
    requires reached { q.now.offset < page * PAGE_SIZE + PAGE_SIZE }
    ensures { result ≡ record_with page (shown q.now) target }
{
    let start = u64::from(page) * u64::from(PAGE_SIZE);
    Fix {
        source: source_of(q),
        alias: has_alias(q),
        offset: (i64::from(q.offset) - start as i64) as i32,
        target: target.0,
        additive: target.1,
    }
}

// Makes more pages than this number.
fn add_pages(alloc: Global, row: &mut Vec<Vec<Fix>>, number: usize) -> Result<(), NoMemory>
    ensures len { OnOk result (number < length row.new.items) }
    ensures same { OnOk result ((k : ℕ) → page_in row.new.items k ≡ page_in row.old.items k) }
{
    'pages: while row.len() <= number {
        row.push(Vec::new(alloc))?;
    }
    Ok(())
}

fn push_on_page(
    alloc: Global,
    row: &mut Vec<Vec<Fix>>,
    page: usize,
    fix: Fix,
) -> Result<(), NoMemory>
    ensures { OnOk result ((k : ℕ) → page_in row.new.items k ≡ (if page == k then fix ∷ page_in row.old.items k else page_in row.old.items k)) }
{
    add_pages(alloc, row, page)?;
    row[page].push(fix)?;
    Ok(())
}

impl PageFixes {
    /// No page has records. It takes no memory.
    pub(crate) fn new(alloc: Global) -> PageFixes
        ensures { (n : ℕ) (k : ℕ) → fixes_of result n k ≡ [] }
    {
        PageFixes {
            rows: Vec::new(alloc),
        }
    }

    // Makes more rows than this number.
    fn add_rows(&mut self, alloc: Global, number: usize) -> Result<(), NoMemory>
        ensures len { OnOk result (number < length self.new.rows.items) }
        ensures same { OnOk result ((n : ℕ) (k : ℕ) → fixes_of self.new n k ≡ fixes_of self.old n k) }
    {
        'rows: while self.rows.len() <= number {
            self.rows.push(Vec::new(alloc))?;
        }
        Ok(())
    }

    // Adds a record before those of its page.
    fn push(&mut self, alloc: Global, object: u32, page: u32, fix: Fix) -> Result<(), NoMemory>
        ensures { OnOk result ((n : ℕ) (k : ℕ) → fixes_of self.new n k ≡ fixes_after self.old object page fix n k) }
    {
        let place = object as usize;
        self.add_rows(alloc, place)?;
        push_on_page(alloc, &mut self.rows[place], page as usize, fix)?;
        Ok(())
    }

    // Takes the records of a row out, by page, in the memory that they have. None are left in the row.
    fn take_row(&mut self, alloc: Global, object: usize) -> Result<Vec<Vec<Fix>>, NoMemory>
        ensures row { IfOk result (λ row. (k : ℕ) → page_in row.items k ≡ fixes_of self.old object k) }
        ensures left { OnOk result ((n : ℕ) (k : ℕ) → fixes_of self.new n k ≡ (if object == n then [] else fixes_of self.old n k)) }
    {
        self.add_rows(alloc, object)?;
        Ok(replace(&mut self.rows[object], Vec::new(alloc)))
    }
}

// Adds the record of a fixup on each page on which it stands, before those of the page: on two where its field crosses a
// page's end.
fn add_records(
    alloc: Global,
    pages: &mut PageFixes,
    q: &Fixup,
    target: (FixTarget, u32),
) -> Result<(), NoMemory>
    requires { 0 < len_of_location q.now.loc }
    ensures { OnOk result ((n : ℕ) (k : ℕ) → fixes_of pages.new n k
        ≡ (if records.stands_on n k (shown q.now) then record_with k (shown q.now) target ∷ fixes_of pages.old n k else fixes_of pages.old n k)) }
{
    let first = q.offset / PAGE_SIZE;
    let end = u64::from(q.offset) + u64::from(location_len(q.loc));
    let last = ((end - 1) / u64::from(PAGE_SIZE)) as u32;
    pages.push(alloc, q.object, first, record_at(q, first, target))?;
    if first < last {
        pages.push(alloc, q.object, last, record_at(q, last, target))?;
    }
    Ok(())
}

/// Adds the records of a fixup that gets some, where its target has a name, before those that are there.
pub(crate) fn add_fixup(
    alloc: Global,
    pages: &mut PageFixes,
    imports: &[Imp],
    tables: &ImportTables,
    q: &Fixup,
) -> Result<(), NoMemory>
    requires { 0 < len_of_location q.now.loc }
    ensures { OnOk result ((pairs : List Imp) → ArePairs tables.now pairs → (n : ℕ) (k : ℕ) → fixes_of pages.new n k
        ≡ records_before imports.now pairs (shown q.now) n k (fixes_of pages.old n k)) }
{
    if is_patched(q) {
        return Ok(());
    }
    if let Some(target) = target_of(alloc, imports, tables, q)? {
        add_records(alloc, pages, q, target)?;
    }
    Ok(())
}

// Cuts a row to so many pages, or fills it up to them with pages without records.
fn fit_row(alloc: Global, row: &mut Vec<Vec<Fix>>, count: usize) -> Result<(), NoMemory>
    ensures len { OnOk result (length row.new.items ≡ count) }
    ensures same { OnOk result ((k : ℕ) → k < count → page_in row.new.items k ≡ page_in row.old.items k) }
{
    add_pages(alloc, row, count)?;
    row.truncate(count);
    Ok(())
}

// The records of a page in order, in the memory that they have.
fn list_of(page: Vec<Fix>) -> Seq<Fix>
    ensures { result ≡ reverse page.items }
{
    let mut fixes = page;
    fixes.reverse();
    Seq::from_vec(fixes)
}

// The lists of these pages, in the memory that they have.
fn lists_of(alloc: Global, row: Vec<Vec<Fix>>) -> Result<Seq<Seq<Fix>>, NoMemory>
    ensures { IfOk result (λ lists. lists ≡ map (λ page. reverse page.items) row.items) }
{
    let mut lists = Seq::new(alloc);
    for page in row {
        lists.push(list_of(page))?;
    }
    Ok(lists)
}

// The records of the first pages of a row.
fn first_pages(alloc: Global, row: Vec<Vec<Fix>>, count: usize) -> Result<Seq<Seq<Fix>>, NoMemory>
    ensures { IfOk result (λ list. list ≡ map (page_in row.items) (range_with_len 0 count)) }
{
    let mut pages = row;
    fit_row(alloc, &mut pages, count)?;
    lists_of(alloc, pages)
}

// How many pages a size takes.
fn page_count(size: u32) -> usize
    ensures { result ≡ records.page_count size }
{
    (size as usize + (PAGE_SIZE as usize - 1)) / PAGE_SIZE as usize
}

/// The records of each page of each object, as many pages as its size takes, in the memory that they have.
pub(crate) fn object_fixes(
    alloc: Global,
    pages: PageFixes,
    objects: &[LaidObject],
) -> Result<Seq<Seq<Seq<Fix>>>, NoMemory>
    ensures { IfOk result (λ all. all ≡ map (λ q. map (fixes_of pages q.0) (range_with_len 0 (records.page_count q.1.size)))
        (enumerate_from 1 objects.now)) }
{
    let mut left = pages;
    let mut all = Seq::new(alloc);
    let mut number = 0;
    for object in objects {
        number += 1;
        let row = left.take_row(alloc, number)?;
        all.push(first_pages(alloc, row, page_count(object.size))?)?;
    }
    Ok(all)
}
