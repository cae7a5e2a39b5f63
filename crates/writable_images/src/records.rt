//! Whether fixups can be the records of a page.

ghost use Rattle.std.specs.Prelude.{◌≡◌, ℕ, ◌+◌, ◌≤◌, ◌<◌, ◌↔◌, ◌||◌, All, AllPairs, IsTrue, false, length, slice_index_or};
ghost use Rattle.lx_model.specs.Sources.{source_size};
ghost use Rattle.lx_model.specs.RecordSpelling.{OffsetFits, AliasFits};
ghost use Rattle.lx_fixrec.specs.Writable.{SelectorFits, NumbersFit, IsWritable, AreApart, MayBeWritten};
ghost use Rattle.writable_images.specs.Bytes.{first_byte, is_in};

use lx_fixrec::{has_selector, source_size};
use lx_types::{Fix, FixTarget, PAGE_SIZE, Source};

/// How many bytes the sources of a page may have: they begin up to 5 bytes before it and end up to
/// 5 bytes after it.
const ROOM: usize = PAGE_SIZE as usize + 10;

// Whether a source at an offset has a byte in the page.
fn offset_fits(source: Source, offset: i32) -> bool
    ensures { IsTrue result ↔ OffsetFits source offset }
{
    offset < PAGE_SIZE as i32 && offset > -(source_size(source) as i32)
}

// Whether the alias is that of a source with a selector.
fn alias_fits(alias: bool, source: Source) -> bool
    ensures { IsTrue result ↔ AliasFits alias source }
{
    !alias || has_selector(source)
}

// Whether a selector alone has no offset.
fn selector_fits(source: Source, offset: u32) -> bool
    ensures { IsTrue result ↔ SelectorFits source offset }
{
    match source {
        Source::Sel => offset == 0,
        _ => true,
    }
}

// Whether the numbers of a target fit their fields.
fn numbers_fit(source: Source, target: FixTarget) -> bool
    ensures { IsTrue result ↔ NumbersFit source target }
{
    match target {
        FixTarget::Internal { object, offset } => object < 65_536 && selector_fits(source, offset),
        FixTarget::Ordinal { import, .. } | FixTarget::Named { import, .. } => import < 65_536,
        FixTarget::Own { ordinal } => ordinal < 65_536,
    }
}

// Whether a fixup can be a source of a record.
fn is_writable(fix: &Fix) -> bool
    ensures { IsTrue result ↔ IsWritable fix.now }
{
    let _additive = fix.additive;
    if !offset_fits(fix.source, fix.offset) {
        return false;
    }
    if !alias_fits(fix.alias, fix.source) {
        return false;
    }
    numbers_fit(fix.source, fix.target)
}

// The number of the first byte of a source at an offset.
#[tactic(auto, using(crate::proofs::SourcesApart::first_is, crate::proofs::SourcesApart::in_room))]
fn first_at(source: Source, offset: i32) -> usize
    requires { OffsetFits source offset }
    ensures value { result ≡ first_byte offset }
    ensures room { result + source_size source ≤ 4106 }
{
    (offset + 5) as usize
}

// The number of a source's first byte.
fn first_byte(fix: &Fix) -> usize
    requires { OffsetFits fix.now.source fix.now.offset }
    ensures value { result ≡ first_byte fix.now.offset }
    ensures room { result + source_size fix.now.source ≤ 4106 }
{
    first_at(fix.source, fix.offset)
}

// Whether none of these bytes is taken.
fn is_free(taken: &[bool], first: usize, size: usize) -> bool
    requires { first + size ≤ length taken.now }
    ensures { IsTrue result ↔ ((k : ℕ) → first ≤ k → k < first + size → slice_index_or taken.now k false ≡ false) }
{
    !taken[first..first + size].contains(&true)
}

// Takes these bytes.
fn take(taken: &mut [bool], first: usize, size: usize)
    requires { first + size ≤ length taken.old }
    ensures { (k : ℕ) → k < length taken.old
        → slice_index_or taken.new k false ≡ (is_in first size k || slice_index_or taken.old k false) }
{
    taken[first..first + size].fill(true);
}

// Whether no two sources share a byte.
fn are_apart(fixes: &[Fix]) -> bool
    requires { All (λ f. OffsetFits f.source f.offset) fixes.now }
    ensures { IsTrue result ↔ AllPairs AreApart fixes.now }
{
    let mut taken = [false; ROOM];
    for fix in fixes {
        let first = first_byte(fix);
        let size = source_size(fix.source) as usize;
        if !is_free(&taken, first, size) {
            return false;
        }
        take(&mut taken, first, size);
    }
    true
}

/// Whether fixups can be the records of a page, as `lx_fixrec::encode_page` asks.
pub fn may_be_written(fixes: &[Fix]) -> bool
    ensures { IsTrue result ↔ MayBeWritten fixes.now }
{
    fixes.iter().all(|fix| is_writable(fix)) && are_apart(fixes)
}
