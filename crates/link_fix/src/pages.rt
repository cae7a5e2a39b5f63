//! The pages of a link before the loader, from its pieces and fixups at their places.

ghost use Rattle.std.specs.Prelude.{◌≡◌, ◌-◌, ℕ, OnOk, IfOk, All, List, map, take, if◌then◌else◌};
ghost use Rattle.link_model.specs.Link.{Link};
ghost use Rattle.link_model.specs.Mean.{fixup_covers};
ghost use Rattle.link_fix.specs.Images.{byte_of};
ghost use Rattle.link_fix.specs.Shown.{shown};
ghost use Rattle.link_fix.specs.Values.{field_byte, IsAccepted, with_fields};
ghost use Rattle.obj_types.specs.declared.symbol.Imp.{Imp};
ghost use Rattle.link_fix.specs.Tables.{ArePairs};
ghost use Rattle.link_fix.specs.Paging.{fixes_of, recorded_in, records_among, records_before};
ghost use Rattle.link_fix.specs.Placed.{AreOfLink, ArePages};

use crate::fixup::Fixup;
use crate::images::Images;
use crate::marks::live_of;
use crate::paging::{PageFixes, add_fixup, object_fixes};
use crate::painting::{PlacedPiece, object_rows, paint_field, placed_data};
use crate::tables::{ImportTables, tables_of};
use link_model::LaidObject;
use lx_types::{Bytes, Fix, Names, NoMemory, Seq};
use obj_types::Imp;
use std::alloc::Global;

/// What a link puts into its module's pages, and what it leaves to the loader.
#[derive(Drop)]
pub struct Pages {
    /// The bytes of each object.
    pub bytes: Seq<Bytes>,
    /// The fixups that are left to the loader, by object and page of 4,096 bytes.
    pub fixes: Seq<Seq<Seq<Fix>>>,
    /// The modules that fixups name, in upper case.
    pub imports: Names,
    /// The names of procedures that fixups name.
    pub procs: Names,
}

/// So many fixups are done before their memory is given back.
const PART: usize = 0x8000;

// Leaves the first ones of these fixups. The memory of the others is given back a part at a time.
fn leave_first(fixups: &mut Vec<Fixup>, count: usize)
    ensures { fixups.new.items ≡ take count fixups.old.items }
{
    fixups.truncate(count);
    if count % PART == 0 {
        fixups.shrink_to_fit();
    }
}

// Puts what stands in a live fixup's field before the loader, and adds its records before those that are there.
fn place_fixup(
    alloc: Global,
    rows: &mut Images,
    pages: &mut PageFixes,
    imports: &[Imp],
    tables: &ImportTables,
    q: &Fixup,
) -> Result<(), NoMemory>
    requires { IsAccepted q.now }
    ensures bytes { OnOk result ((l : Link) (n : ℕ) (x : ℕ) → byte_of rows.new n x
        ≡ (if fixup_covers n x (shown q.now) then field_byte l (shown q.now) (x - q.now.offset) else byte_of rows.old n x)) }
    ensures records { OnOk result ((pairs : List Imp) → ArePairs tables.now pairs → (n : ℕ) (k : ℕ) → fixes_of pages.new n k
        ≡ records_before imports.now pairs (shown q.now) n k (fixes_of pages.old n k)) }
{
    paint_field(alloc, rows, q)?;
    add_fixup(alloc, pages, imports, tables, q)
}

// Puts what stands in the fields of live fixups before the loader over the data, and makes their records: values that no
// base changes are patched in, and zeros stand where the loader gets a record. Where fields share bytes, which those of
// live fixups never do, the first fixup's stand. It goes from the last to the first, so that the fixups that are done need
// no memory while records are made.
fn place_live(
    alloc: Global,
    live: Vec<Fixup>,
    rows: &mut Images,
    imports: &[Imp],
    tables: &ImportTables,
) -> Result<PageFixes, NoMemory>
    requires { All IsAccepted live.items }
    ensures bytes { OnOk result ((l : Link) (n : ℕ) (x : ℕ) → byte_of rows.new n x ≡ with_fields l (map shown live.items) (byte_of rows.old) n x) }
    ensures records { IfOk result (λ pages. (pairs : List Imp) → ArePairs tables.now pairs → (n : ℕ) (k : ℕ) →
        fixes_of pages n k ≡ records_among imports.now pairs (recorded_in (map shown live.items)) n k) }
{
    let mut pages = PageFixes::new(alloc);
    let mut kept = live;
    let mut left = kept.len();
    'fixups: while 0 < left {
        left -= 1;
        let q = kept[left];
        leave_first(&mut kept, left);
        place_fixup(alloc, rows, &mut pages, imports, tables, &q)?;
    }
    Ok(pages)
}

/// The pages of a link whose fixups are not refused. It gives the memory of the fixups back as soon as it can.
pub fn place_pages(
    alloc: Global,
    pieces: &[PlacedPiece],
    fixups: Vec<Fixup>,
    objects: &[LaidObject],
    imports: &[Imp],
) -> Result<Pages, NoMemory>
    requires { All IsAccepted fixups.items }
    ensures { IfOk result (λ pages. (l : Link) → AreOfLink l pieces.now fixups.items objects.now imports.now → ArePages l pages) }
{
    let live = live_of(alloc, fixups)?;
    let tables = tables_of(alloc, imports, live.as_slice())?;
    let mut rows = placed_data(alloc, pieces, objects)?;
    let pages = place_live(alloc, live, &mut rows, imports, &tables)?;
    let bytes = object_rows(alloc, rows, objects)?;
    let fixes = object_fixes(alloc, pages, objects)?;
    let (imports, procs) = tables.into_names();
    Ok(Pages {
        bytes,
        fixes,
        imports,
        procs,
    })
}
