//! A page with its fixups.

ghost use Rattle.std.specs.Prelude.{◌≡◌, ◌+◌, ◌<◌, ◌^◌, ℕ, box_value, length, slice_index, unwrap_or, take};
ghost use Rattle.lx_types.specs.declared.object.TheConstants.{PAGE_SIZE};
ghost use Rattle.lx_types.specs.Addresses.{address};
ghost use Rattle.lx_types.specs.Object.{class_of, pages_of};
ghost use Rattle.lx_types.specs.Parts.{object_of, fix_span_at, fixes_at};
ghost use Rattle.lx_types.specs.Sound.{IsNumberOf};
ghost use Rattle.lx_types.specs.declared.object.Class.TheVariants.{Private};
ghost use Rattle.lx_fixrec.specs.Left.{left_in};
ghost use Rattle.lx_model.specs.Entries.{target_spot};
ghost use Rattle.lx_model.specs.Fixed.{patch_of, patched, sources_of, end_address, spot_address, bytes_for};
ghost use Rattle.lx_model.specs.Library.{module_of};
ghost use Rattle.lx_model.specs.ModuleBytes.{fixed_page, spot_flags};
ghost use Rattle.page_fix.specs.Laid.{laid, patches_left};

use crate::bases::BaseIndex;
use crate::field::{Field, field_for};
use crate::fixed::FixedPage;
use crate::owned::OwnLibrary;
use crate::putting::put;
use crate::raw::write_raw;
use crate::rights::FixRight;
use crate::steps::Steps;
use lx_fixrec::{records, source_size};
use lx_model::Spot;
use lx_types::{Bases, Fix, PAGE_SIZE, PageBytes, PageId};
use mod_graph::Library;
use std::snapshot::Snapshot;
use std::sync::ledger::Ledger;

/// A page to be fixed: of which module of which library, and at which bases.
#[derive(Clone, Copy)]
struct Site<'a> {
    lib: &'a Library,
    module: u32,
    bases: BaseIndex<'a>,
    page: PageId,
    ghost there: { «module» < length lib.now },
}

impl<'a> Site<'a> {
    // The flags of the object in which a spot lies, and 0 where there is none.
    fn flags(&self, spot: Spot) -> u32
        ensures { result ≡ spot_flags self.now.lib.now spot }
    {
        if spot.module >= self.lib.len() {
            return 0;
        }
        match self.lib.module(spot.module).object(spot.object) {
            Some(object) => object.flags,
            None => 0,
        }
    }

    // The address at which a source's field ends.
    fn end(&self, fix: &Fix) -> u32
        ensures { result ≡ end_address self.now.bases.bases.now self.now.«module» self.now.page fix.now }
    {
        let base = self.bases.base(self.module, self.page.object);
        let field = base
            .wrapping_add(self.page.page.wrapping_mul(PAGE_SIZE))
            .wrapping_add(source_size(fix.source));
        let by = fix.offset.unsigned_abs();
        if fix.offset < 0 {
            field.wrapping_sub(by)
        } else {
            field.wrapping_add(by)
        }
    }

    // Puts a source into the page. One whose target has no spot, which no fit module has, puts nothing.
    fn put_source(&self, page: &mut [u8], fix: &Fix)
        requires { length page.old ≡ PAGE_SIZE }
        ensures { (i : ℕ) → i < PAGE_SIZE → slice_index page.new i
            ≡ unwrap_or (patched (patch_of self.now.lib.now self.now.«module» self.now.bases.bases.now self.now.page fix.now) i) (slice_index page.old i) }
    {
        let Ok(spot) = self.lib.target(self.module, &fix.target) else {
            return;
        };
        let address = self
            .bases
            .base(spot.module, spot.object)
            .wrapping_add(spot.offset)
            .wrapping_add(fix.additive);
        let field = field_for(
            fix.source,
            fix.alias,
            self.flags(spot),
            address,
            self.end(fix),
        );
        put(page, fix, field.bytes());
    }

    // Puts the sources of records into the page, one after the other, and counts them.
    fn put_sources<L: Ledger>(&self, page: &mut [u8], bytes: &[u8], at: u32, steps: &mut Steps<L>)
        requires page { length page.old ≡ PAGE_SIZE }
        requires short { at + length bytes.now < 2 ^ 32 }
        ensures bytes { (i : ℕ) → i < PAGE_SIZE → slice_index page.new i
            ≡ laid (patches_left self.now.lib.now self.now.«module» self.now.bases.bases.now self.now.page (left_in at bytes.now)) i (slice_index page.old i) }
        ensures steps { steps.new ≡ steps.old + length (left_in at bytes.now).items }
    {
        let mut sources = records(bytes, at);
        while let Some(source) = sources.next() {
            if let Ok(fix) = source {
                self.put_source(page, &fix);
                steps.tick();
            }
        }
    }

    // Writes the page with its fixups.
    fn fix_into<L: Ledger>(&self, page: &mut PageBytes, steps: &mut Steps<L>)
        requires object { IsNumberOf self.now.page.object (length (module_of self.now.lib.now self.now.«module»).objects) }
        requires page { self.now.page.page < pages_of (object_of (module_of self.now.lib.now self.now.«module») self.now.page.object) }
        ensures bytes { page.new ≡ fixed_page self.now.lib.now self.now.«module» self.now.bases.bases.now self.now.page }
        ensures steps { steps.new ≡ steps.old + length (sources_of (module_of self.now.lib.now self.now.«module») self.now.page) }
    {
        let owner = self.lib.module(self.module);
        write_raw(owner, self.page, page);
        let (from, _) = owner.fix_span(self.page);
        self.put_sources(page, owner.fix_bytes(self.page), from, steps);
    }
}

// Writes a page of module `m` of a library into the buffer, with its fixups at these bases, and gives the buffer back.
fn fix_any<L: Ledger>(
    lib: &Library,
    m: u32,
    bases: &Bases,
    p: PageId,
    mut buffer: Box<PageBytes>,
    steps: &mut Steps<L>,
) -> Box<PageBytes>
    requires module { m < length lib.now }
    requires object { IsNumberOf p.object (length (module_of lib.now m).objects) }
    requires page { p.page < pages_of (object_of (module_of lib.now m) p.object) }
    ensures bytes { box_value result ≡ fixed_page lib.now m bases.now p }
    ensures steps { steps.new ≡ steps.old + length (sources_of (module_of lib.now m) p) }
{
    let site = Site {
        lib,
        module: m,
        bases: BaseIndex::of(bases),
        page: p,
    };
    site.fix_into(&mut buffer, steps);
    buffer
}

/// Writes a page of a Private object of module `m` of a library into the buffer, with its fixups at these bases, and gives the
/// buffer back: each process fixes such a page for itself. The count rises by the record sources of the page. It takes no
/// memory, and time that grows with the page's records and with the modules that the bases are of.
pub fn fix_private<L: Ledger>(
    lib: &Library,
    m: u32,
    bases: &Bases,
    p: PageId,
    buffer: Box<PageBytes>,
    steps: &mut Steps<L>,
) -> Box<PageBytes>
    requires module { m < length lib.now }
    requires object { IsNumberOf p.object (length (module_of lib.now m).objects) }
    requires page { p.page < pages_of (object_of (module_of lib.now m) p.object) }
    requires own { class_of (object_of (module_of lib.now m) p.object) ≡ Private }
    ensures bytes { box_value result ≡ fixed_page lib.now m bases.now p }
    ensures steps { steps.new ≡ steps.old + length (sources_of (module_of lib.now m) p) }
{
    fix_any(lib, m, bases, p, buffer, steps)
}

/// Writes a page of module `m` of a library that nobody shares into the buffer, whatever its object is, and gives the buffer
/// back. Its owner may do so as often as it likes. Count, memory and time are those of `fix_private`.
pub fn fix_owned<L: Ledger>(
    lib: &OwnLibrary,
    m: u32,
    bases: &Bases,
    p: PageId,
    buffer: Box<PageBytes>,
    steps: &mut Steps<L>,
) -> Box<PageBytes>
    requires module { m < length lib.now }
    requires object { IsNumberOf p.object (length (module_of lib.now m).objects) }
    requires page { p.page < pages_of (object_of (module_of lib.now m) p.object) }
    ensures bytes { box_value result ≡ fixed_page lib.now m bases.now p }
    ensures steps { steps.new ≡ steps.old + length (sources_of (module_of lib.now m) p) }
{
    fix_any(lib.library(), m, bases, p, buffer, steps)
}

/// Spends a right: writes its page, a page of module `m` of a library, into the buffer, with its fixups at these bases. The
/// count rises by the record sources of the page. It takes no memory, and time that grows with the page's records and with
/// the modules that the bases are of.
pub fn fix_page<L: Ledger>(
    right: FixRight,
    lib: &Library,
    m: u32,
    bases: &Bases,
    buffer: &mut PageBytes,
    steps: &mut Steps<L>,
) -> FixedPage
    requires module { m < length lib.now }
    requires object { IsNumberOf right.page.object (length (module_of lib.now m).objects) }
    requires page { right.page.page < pages_of (object_of (module_of lib.now m) right.page.object) }
    ensures named { (result.serial ≡ right.serial) × (result.page ≡ right.page) }
    ensures bytes { result.bytes ≡ fixed_page lib.now m bases.now right.page }
    ensures written { buffer.new ≡ result.bytes }
    ensures steps { steps.new ≡ steps.old + length (sources_of (module_of lib.now m) right.page) }
{
    let (serial, page) = right.spend();
    let site = Site {
        lib,
        module: m,
        bases: BaseIndex::of(bases),
        page,
    };
    site.fix_into(buffer, steps);
    FixedPage {
        serial,
        page,
        bytes: Snapshot::of(buffer),
    }
}
