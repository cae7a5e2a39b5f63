//! Whether exports can stand in the tables of a module, and which ordinals they have.

ghost use Rattle.std.specs.Prelude.{◌≡◌, ◌↔◌, ◌==◌, ℕ, false, Some, IsTrue, IfOk, slice_index_or};
ghost use Rattle.std.specs.List.{list_any, AllByRecursion};
ghost use Rattle.lx_types.specs.Answers.{Answers};
ghost use Rattle.lx_exports.specs.Exports.{HeadFits, ExportFits, exported_of, export_refusal};

use link_model::MAX_NUMBER;
use lx_exports::{EntryRefusal, OutEntry, ordinals_of};
use lx_types::{EntryHead, Fail, NoMemory};
use std::alloc::Global;

// Whether a head's numbers have room in the entry table.
fn head_fits(wide: bool, head: EntryHead) -> bool
    ensures { IsTrue result ↔ HeadFits wide head }
{
    match head {
        EntryHead::At { object, offset } => {
            0 < object && object <= MAX_NUMBER && (offset <= MAX_NUMBER || wide)
        }
        EntryHead::Gate286 { .. } => false,
        EntryHead::Forward { import, .. } => 0 < import && import <= MAX_NUMBER,
    }
}

// Whether an export can stand in the tables.
fn export_fits(export: &OutEntry) -> bool
    ensures { IsTrue result ↔ ExportFits export.now }
{
    !export.name.bytes().is_empty() && export.words <= 31 && head_fits(export.wide, export.head)
}

/// Whether exports can stand in the tables of a module, as `lx_exports::write_tables` asks.
pub fn exports_fit(exports: &[OutEntry]) -> bool
    ensures { IsTrue result ↔ AllByRecursion ExportFits exports.now }
{
    for export in exports {
        if !export_fits(export) {
            return false;
        }
    }
    true
}

// Marks the numbers that stand in a list.
fn marked(alloc: Global, numbers: &[u16]) -> Result<Vec<bool>, NoMemory>
    ensures { IfOk result (λ marks. (k : ℕ)
        → slice_index_or marks.items k false ≡ list_any (λ n. n == k) numbers.now) }
{
    let mut marks = vec![in alloc; false; 65_536]?;
    for &number in numbers {
        marks[usize::from(number)] = true;
    }
    Ok(marks)
}

/// Which numbers up to 65,535 are ordinals of exports.
///
/// `Ordinal` where the exports have no ordinals: `lx_exports::write_tables` refuses them so.
pub fn ordinal_marks(alloc: Global, exports: &[OutEntry]) -> Result<Vec<bool>, Fail<EntryRefusal>>
    ensures { Answers result
        (λ marks. (k : ℕ) → slice_index_or marks.items k false ≡ list_any (λ x. x.ordinal == k) (exported_of exports.now))
        (λ refusal. export_refusal exports.now ≡ Some refusal) }
{
    let ordinals = ordinals_of(alloc, exports)?;
    Ok(marked(alloc, ordinals.as_slice())?)
}
