//! LEDATA and LIDATA records after a segment of 12 bytes.

ghost use Rattle.std.specs.Prelude.{IfOk};
ghost use Rattle.omf_model.specs.Begun.{IsBegun};

use lx_types::{Name, NoMemory, Seq};
use obj_types::{ObjParts, Seg};
use omf_data::{ledata, lidata};
use omf_frame::Rec;
use omf_frame::record_type::{LEDATA, LIDATA};
use std::alloc::Global;

/// A module of which the header, one name and one segment were read, all of them with the empty name.
fn with_segment(alloc: Global) -> Result<ObjParts, NoMemory>
    ensures { IfOk result (λ parts. IsBegun parts) }
{
    let mut parts = ObjParts::fresh(alloc);
    parts.names.push(Name::empty(alloc))?;
    parts.module.segs.push(Seg {
        name: Name::empty(alloc),
        class: Name::empty(alloc),
        align: 1,
        combine: 2,
        wide: false,
        len: 12,
        debug: false,
    })?;
    Ok(parts)
}

#[test]
fn straight_data(rt: HostRuntime) -> Result<(), NoMemory> {
    let mut parts = with_segment(rt.alloc())?;
    let record = Rec {
        at: 0,
        ty: LEDATA,
        body: &[1, 2, 0, 0xAB, 0xCD],
    };
    assert!(rt; ledata(rt.alloc(), &record, &mut parts).is_ok());
    Ok(())
}

#[test]
fn iterated_data(rt: HostRuntime) -> Result<(), NoMemory> {
    let mut parts = with_segment(rt.alloc())?;
    // Twice three times two bytes.
    let record = Rec {
        at: 0,
        ty: LIDATA,
        body: &[1, 0, 0, 2, 0, 1, 0, 3, 0, 0, 0, 2, 0xAB, 0xCD],
    };
    assert!(rt; lidata(rt.alloc(), &record, &mut parts).is_ok());
    Ok(())
}
