//! Whether one COMDAT may stand for another.

ghost use Rattle.std.specs.Prelude.{◌≡◌, not, List, IfOk, map};
ghost use Rattle.std.specs.List.{range_with_len};
ghost use Rattle.obj_types.specs.declared.object.ObjModule.{ObjModule};
ghost use Rattle.link_model.specs.Clash as rules;
ghost use Rattle.comdat_core.specs.Taking.{shown};
ghost use Rattle.comdat_core.specs.ModuleData.{IsAt, HasData};

use crate::taking::{Owned, Placed};
use link_fix::{Images, data_of};
use lx_types::NoMemory;
use obj_types::Selection;
use std::alloc::Global;
use std::collections::BTreeMap;

/// The data of modules whose COMDATs were compared, as rows by segment, by the places of the modules.
pub type ModuleData = BTreeMap<usize, Images>;

// The length of its segment.
fn len_of(x: &Owned<'_>) -> u32
    ensures { result ≡ rules.len_of (shown x.now) }
{
    match x.comdat.seg.checked_sub(1) {
        None => 0,
        Some(place) => match x.owner.segs.as_slice().get(place as usize) {
            None => 0,
            Some(seg) => seg.len,
        },
    }
}

// So many bytes of its segment, without fixups. The pieces of its module are looked at once, and its data is kept.
fn bytes_of(
    alloc: Global,
    kept: &mut ModuleData,
    x: &Placed<'_>,
    len: u32,
) -> Result<Vec<u8>, NoMemory>
    ensures { IfOk result (λ bytes. (modules : List ObjModule) → HasData modules kept.old → IsAt modules x.now
        → (bytes.items ≡ map (rules.byte_of (shown x.now.own)) (range_with_len 0 len)) × HasData modules kept.new) }
{
    let seg = x.own.comdat.seg as usize;
    if let Some(rows) = kept.get(&x.place) {
        return rows.row(alloc, seg, len as usize);
    }
    let rows = data_of(alloc, x.own.owner.pieces.as_slice())?;
    let bytes = rows.row(alloc, seg, len as usize)?;
    let _none = kept.insert(x.place, rows)?;
    Ok(bytes)
}

// Whether a byte of the first is not that of the second.
fn has_other_byte(
    alloc: Global,
    kept: &mut ModuleData,
    first: &Placed<'_>,
    second: &Placed<'_>,
) -> Result<bool, NoMemory>
    ensures { IfOk result (λ other. (modules : List ObjModule) → HasData modules kept.old → IsAt modules first.now → IsAt modules second.now
        → (other ≡ rules.has_other_byte (shown first.now.own) (shown second.now.own)) × HasData modules kept.new) }
{
    let len = len_of(&first.own);
    let own = bytes_of(alloc, kept, first, len)?;
    let other = bytes_of(alloc, kept, second, len)?;
    Ok(own.as_slice() != other.as_slice())
}

/// Whether the first may not stand for the second, by the first one's selection. What is kept of modules that were compared
/// before is not looked for again.
pub fn refuses(
    alloc: Global,
    kept: &mut ModuleData,
    first: &Placed<'_>,
    second: &Placed<'_>,
) -> Result<bool, NoMemory>
    ensures { IfOk result (λ refused. (modules : List ObjModule) → HasData modules kept.old → IsAt modules first.now → IsAt modules second.now
        → (refused ≡ rules.refuses (shown first.now.own) (shown second.now.own)) × HasData modules kept.new) }
{
    let other_len = len_of(&first.own) != len_of(&second.own);
    match first.own.comdat.selection {
        Selection::NoMatch => Ok(true),
        Selection::Any => Ok(false),
        Selection::SameSize => Ok(other_len),
        Selection::Exact => {
            if other_len {
                return Ok(true);
            }
            has_other_byte(alloc, kept, first, second)
        }
    }
}
