//! The segments of COMDATs.

ghost use Rattle.std.specs.Prelude.{◌≡◌, ◌<◌, IfOk, IfSome, false, length};
ghost use Rattle.std.specs.Option.{option_map};
ghost use Rattle.obj_types.specs.Items.{IsIndex};
ghost use Rattle.obj_types.specs.declared.object.TheConstants.{COMBINE_PUBLIC};
ghost use Rattle.omf_model.specs.Comdat.{allocated as allocated_there, allocation, segment_by, segment_with as bare_segment, selection_bits, selection_by, begun_with};
ghost use Rattle.omf_comdat.specs.Fields.{base_of, comdat_of};

use crate::fields::{Base, ComdatFields};
use lx_types::{Name, NoMemory};
use obj_types::{ALIGN_DOUBLEWORD, BegunComdat, COMBINE_PUBLIC, ObjParts, Seg, Selection};
use std::alloc::Global;

/// The selection criterion of an attribute byte.
fn selection(attributes: u8) -> Selection
    ensures { result ≡ selection_by (selection_bits attributes) }
{
    match attributes / 16 {
        0 => Selection::NoMatch,
        1 => Selection::Any,
        2 => Selection::SameSize,
        _ => Selection::Exact,
    }
}

/// A segment of these names, without bytes.
fn segment_of(alloc: Global, name: &[u8], class: &[u8], wide: bool) -> Result<Seg, NoMemory>
    requires name { length name.now < 256 }
    requires class { length class.now < 256 }
    ensures { IfOk result (λ seg. seg ≡ bare_segment name.now class.now wide) }
{
    Ok(Seg {
        name: Name::of_short(alloc, name)?,
        class: Name::of_short(alloc, class)?,
        align: ALIGN_DOUBLEWORD,
        combine: COMBINE_PUBLIC,
        wide,
        len: 0,
        debug: false,
    })
}

/// The segment of an allocation type that is not explicit, without bytes.
fn segment_with(alloc: Global, allocation: u8) -> Result<Seg, NoMemory>
    ensures { IfOk result (λ seg. seg ≡ segment_by allocation) }
{
    match allocation {
        1 => segment_of(alloc, b"CODE16".as_slice(), b"CODE".as_slice(), false),
        2 => segment_of(alloc, b"DATA16".as_slice(), b"FAR_DATA".as_slice(), false),
        3 => segment_of(alloc, b"CODE32".as_slice(), b"CODE".as_slice(), true),
        _ => segment_of(alloc, b"DATA32".as_slice(), b"DATA".as_slice(), true),
    }
}

/// A segment like an earlier one, without bytes.
fn segment_like(alloc: Global, base: &Seg) -> Result<Seg, NoMemory>
    ensures { IfOk result (λ seg. seg ≡ record base.now { combine = COMBINE_PUBLIC; len = 0; debug = false }) }
{
    Ok(Seg {
        name: base.name.copied(alloc)?,
        class: base.class.copied(alloc)?,
        align: base.align,
        combine: COMBINE_PUBLIC,
        wide: base.wide,
        len: 0,
        debug: false,
    })
}

/// The segment of an allocation: that of the base, where it is explicit.
fn allocated(
    alloc: Global,
    before: &ObjParts,
    attributes: u8,
    base: Option<Base>,
) -> Result<Seg, NoMemory>
    requires { IfSome base (λ b. IsIndex before.now.module.segs b.segment) }
    ensures { IfOk result (λ seg. seg ≡ allocated_there before.now.module.segs (allocation attributes) (option_map base_of base)) }
{
    match base {
        Some(base) => {
            let segs = before.module.segs.as_slice();
            segment_like(alloc, &segs[base.segment as usize - 1])
        }
        None => segment_with(alloc, attributes % 16),
    }
}

/// The COMDAT that a record begins, without its data.
pub fn begun(
    alloc: Global,
    before: &ObjParts,
    name: &[u8],
    d: &ComdatFields,
) -> Result<BegunComdat, NoMemory>
    requires short { length name.now < 256 }
    requires based { IfSome d.now.base (λ b. IsIndex before.now.module.segs b.segment) }
    ensures { IfOk result (λ own. own ≡ begun_with before.now.module.segs name.now (comdat_of d.now)) }
{
    let mut seg = allocated(alloc, before, d.attributes, d.base)?;
    if d.align != 0 {
        seg.align = d.align;
    }
    let group = match d.base {
        Some(base) => base.group,
        None => 0,
    };
    Ok(BegunComdat {
        name: Name::of_short(alloc, name)?,
        selection: selection(d.attributes),
        seg,
        group,
    })
}
