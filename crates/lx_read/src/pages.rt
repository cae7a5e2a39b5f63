//! The object page table, and the data of its pages ("Object Page Table", "Iterated Data Pages").

ghost use Rattle.std.specs.Prelude.{◌≡◌, ◌+◌, ◌*◌, ◌<◌, ◌≤◌, ◌^◌, length};
ghost use Rattle.lx_types.specs.declared.object.PageKind.TheVariants.{Plain, Iterated};
ghost use Rattle.lx_model.specs.Reading.{fault, short_at, ◌then◌};
ghost use Rattle.lx_iter.specs.Expansion.{refusal};
ghost use Rattle.lx_model.specs.Tables.{page_entry, page_place, page_or_zero, kind_fault, page_fault, page_heads, pages_fault};
ghost use Rattle.lx_read.specs.Headers.{IsHeaderOf};
ghost use Rattle.lx_types.specs.Answers.{as_is, if_said};
ghost use Rattle.lx_model.specs.Judging.{Judged, Judges};
ghost use Rattle.lx_read.specs.Pages.{data_fault, page_with};

use crate::fields::{fault, said, whole};
use crate::header::Header;
use lx_head::page_at;
use lx_iter::{IterRefusal, expand};
use lx_model::PAGE_ENTRY_LEN;
use lx_types::{Fail, LxKind, LxRefusal, PAGE_LEN, PAGE_SIZE, PageBytes, PageHead, PageKind, Seq};
use std::alloc::Global;

/// What an entry of the table has beside its flags, and its place.
#[derive(Clone, Copy)]
struct Entry {
    at: u64,
    offset: u32,
    len: u32,
}

// Where the data of a page stands that begins so far after the data of all pages.
fn data_place(from: u32, offset: u32, shift: u32) -> u64
    requires { shift ≤ 12 }
    ensures { result ≡ from + offset * 2 ^ shift }
{
    u64::from(from) + (u64::from(offset) << shift)
}

// The data of an entry, from a place on, where it stands in the file.
fn data_at(file: &[u8], entry: Entry, at: u64, kind: PageKind) -> Result<PageHead, LxRefusal>
    requires at { at < 2 ^ 62 }
    requires short { length file.now < 2 ^ 32 }
    ensures { Judges as_is result (record { kind = kind; at = at; len = entry.len })
        (data_fault file.now entry.at at entry.len) }
{
    if at + u64::from(entry.len) > file.len() as u64 {
        return Err(fault(LxKind::PageData, entry.at));
    }
    Ok(PageHead {
        kind,
        at: at as u32,
        len: entry.len,
    })
}

fn plain_page(file: &[u8], header: &Header, entry: Entry) -> Result<PageHead, LxRefusal>
    requires { IsHeaderOf file.now header.now }
    ensures { Judges as_is result (page_with file.now entry Plain)
        (kind_fault file.now entry.at Plain (page_with file.now entry Plain)) }
{
    if entry.len > PAGE_SIZE {
        return Err(fault(LxKind::PageData, entry.at));
    }
    let at = data_place(header.data_pages, entry.offset, header.page_shift);
    data_at(file, entry, at, PageKind::Plain)
}

// What is wrong with iterated data that stands at a place.
fn group_fault(at: u32, why: IterRefusal) -> LxRefusal
    ensures { result ≡ fault (refusal why).kind (at + (refusal why).at) }
{
    match why {
        IterRefusal::TooLong { at: group } => fault(
            LxKind::TooLong,
            u64::from(at) + u64::from(group),
        ),
        IterRefusal::Short { at: group } => fault(LxKind::Short, u64::from(at) + u64::from(group)),
    }
}

// The groups are judged by expanding them into `scratch`.
fn iterated_page(
    file: &[u8],
    header: &Header,
    entry: Entry,
    scratch: &mut PageBytes,
) -> Result<PageHead, LxRefusal>
    requires { IsHeaderOf file.now header.now }
    ensures { Judges as_is result (page_with file.now entry Iterated)
        (kind_fault file.now entry.at Iterated (page_with file.now entry Iterated)) }
{
    let at = data_place(header.iterated_pages, entry.offset, header.page_shift);
    let page = data_at(file, entry, at, PageKind::Iterated)?;
    let from = page.at as usize;
    match expand(&file[from..from + page.len as usize], scratch) {
        Ok(()) => Ok(page),
        Err(why) => Err(group_fault(page.at, why)),
    }
}

// The fields of an entry, an offset, a size and flags, have to be in the file.
fn whole_entry(file: &[u8], at: u64) -> Result<(), LxRefusal>
    requires { at < 2 ^ 61 }
    ensures { Judged as_is result (short_at 4 file.now at then short_at 2 file.now (at + 4) then short_at 2 file.now (at + 6)) }
{
    whole(file, at, 4)?;
    whole(file, at + 4, 2)?;
    whole(file, at + 6, 2)
}

// Entry k of the table, from 0, with its data.
fn read_page(
    file: &[u8],
    header: &Header,
    k: u32,
    scratch: &mut PageBytes,
) -> Result<PageHead, LxRefusal>
    requires { IsHeaderOf file.now header.now }
    ensures { Judges as_is result (page_or_zero (page_entry file.now (page_place file.now k))) (page_fault file.now k) }
{
    let at = header.page_table + PAGE_ENTRY_LEN as u64 * u64::from(k);
    whole_entry(file, at)?;
    let Some(page) = page_at(file, at as usize) else {
        return Err(fault(LxKind::PageKind, at));
    };
    let entry = Entry {
        at,
        offset: page.at,
        len: page.len,
    };
    match page.kind {
        PageKind::Plain => plain_page(file, header, entry),
        PageKind::Iterated => iterated_page(file, header, entry, scratch),
        PageKind::Invalid | PageKind::Zero => Ok(PageHead {
            kind: page.kind,
            at: 0,
            len: 0,
        }),
    }
}

/// The object page table. A refusal is the table's first fault: a field that passes the file's end
/// (`Short`), flags over 3 (`PageKind`) or data that is not in the file or is too long for a plain
/// page (`PageData`), both at the entry, or a group of iterated data that passes its end (`Short`)
/// or gives more than a page (`TooLong`), at the group.
///
/// Each entry takes the time of a page and of its data, which has fewer than 65,536 bytes.
pub fn read_pages(
    alloc: Global,
    file: &[u8],
    header: &Header,
) -> Result<Seq<PageHead>, Fail<LxRefusal>>
    requires { IsHeaderOf file.now header.now }
    ensures { Judges if_said result (page_heads file.now) (pages_fault file.now) }
{
    let mut scratch = [0; PAGE_LEN];
    let mut pages = Seq::new(alloc);
    for k in 0..header.pages {
        pages.push(said(read_page(file, header, k, &mut scratch))?)?;
    }
    Ok(pages)
}
