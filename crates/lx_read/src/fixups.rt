//! The fixup page table: where the fixup records of each page stand ("Fixup Page Table").

ghost use Rattle.std.specs.Prelude.{◌≡◌, ◌-◌, ◌==◌, IfOk, Some, map, if◌then◌else◌};
ghost use Rattle.std.specs.List.{range_with_len};
ghost use Rattle.lx_model.specs.FixupPages.{records_place, span_fault, spans_of, spans_fault};
ghost use Rattle.lx_read.specs.Headers.{IsHeaderOf};
ghost use Rattle.lx_types.specs.Answers.{as_is, if_said};
ghost use Rattle.lx_model.specs.Judging.{Judges};

use crate::fields::{doubleword, fault, said};
use crate::header::Header;
use lx_types::{Fail, LxKind, LxRefusal, NoMemory, Seq};
use std::alloc::Global;

/// Where the records of each page begin, and where they end.
pub type Spans = Seq<(u32, u32)>;

// Entry k of the table at a place: where the records of page k begin, and those of the page before
// end, which begin at `before`.
fn records_place(
    file: &[u8],
    header: &Header,
    table: u64,
    k: u32,
    before: u32,
) -> Result<u32, LxRefusal>
    requires header { IsHeaderOf file.now header.now }
    requires table { header.now.fixup_pages ≡ Some table }
    requires before { before ≡ (if k == 0 then 0 else records_place file.now (k - 1)) }
    ensures { Judges as_is result (records_place file.now k) (span_fault file.now k) }
{
    let at = table + 4 * u64::from(k);
    let place = header.fixup_records + u64::from(doubleword(file, at)?);
    if place < u64::from(before) || place > file.len() as u64 {
        return Err(fault(LxKind::FixTable, at));
    }
    Ok(place as u32)
}

// No records for each of so many pages.
fn no_spans(alloc: Global, pages: u32) -> Result<Spans, NoMemory>
    ensures { IfOk result (λ spans. spans ≡ map (λ _. (0, 0)) (range_with_len 0 pages)) }
{
    let mut spans = Seq::new(alloc);
    for _ in 0..pages {
        spans.push((0, 0))?;
    }
    Ok(spans)
}

/// The fixup page table. An offset that is less than the one before, or leads past the file's end,
/// is `FixTable` at its entry, and an entry that passes the file's end is `Short`.
pub fn read_spans(alloc: Global, file: &[u8], header: &Header) -> Result<Spans, Fail<LxRefusal>>
    requires { IsHeaderOf file.now header.now }
    ensures { Judges if_said result (spans_of file.now) (spans_fault file.now) }
{
    let Some(table) = header.fixup_pages else {
        return Ok(no_spans(alloc, header.pages)?);
    };
    let mut from = said(records_place(file, header, table, 0, 0))?;
    let mut spans = Seq::new(alloc);
    for k in 0..header.pages {
        let to = said(records_place(file, header, table, k + 1, from))?;
        spans.push((from, to))?;
        from = to;
    }
    Ok(spans)
}
