//! The records of externals and publics ("8Ch EXTDEF", "90h PUBDEF").

ghost use Rattle.std.specs.Prelude.{◌≡◌, ◌++◌, ◌≤◌, IfOk, OnOk, length};
ghost use Rattle.std.specs.List.{AllByRecursion, flat_map};
ghost use Rattle.omf_write.specs.ObjectBytes.{extdef_bytes, extdef_record, pubdef_bytes, pubdef_record};
ghost use Rattle.omf_write.specs.ObjectFits.{ExtFits, PlaceFits, PubFits};

use crate::fields::{push_index, push_name};
use crate::framed::push_record;
use lx_types::NoMemory;
use obj_types::{Ext, Pub, PubPlace};
use omf_frame::record_type::{EXTDEF, PUBDEF_32};
use std::alloc::Global;

// The contents of an EXTDEF record of one name without a type.
fn extdef_contents(alloc: Global, ext: &Ext) -> Result<Vec<u8>, NoMemory>
    ensures is { IfOk result (λ contents. contents.items ≡ extdef_bytes ext.now) }
    ensures short { IfOk result (λ contents. length contents.items ≤ 257) }
    ensures fits { IfOk result (λ _. ExtFits ext.now) }
{
    let mut contents = Vec::new(alloc);
    push_name(&mut contents, ext.name.bytes())?;
    contents.push(0)?;
    Ok(contents)
}

/// Writes a record for each external.
pub fn push_externals(alloc: Global, out: &mut Vec<u8>, exts: &[Ext]) -> Result<(), NoMemory>
    ensures is { OnOk result (out.new.items ≡ out.old.items ++ flat_map extdef_record exts.now) }
    ensures fits { OnOk result (AllByRecursion ExtFits exts.now) }
{
    for ext in exts {
        let contents = extdef_contents(alloc, ext)?;
        push_record(out, EXTDEF, &contents)?;
    }
    Ok(())
}

// What the type of a place's offset says of it.
fn place_fits(place: PubPlace)
    ensures { PlaceFits place }
{
    if let PubPlace::In { seg: _, offset } = place {
        let _value = offset;
    }
}

// The contents of a PUBDEF record of one name in a segment, without a group and a type.
fn pubdef_contents(alloc: Global, public: &Pub) -> Result<Vec<u8>, NoMemory>
    ensures is { IfOk result (λ contents. contents.items ≡ pubdef_bytes public.now.name public.now.place) }
    ensures short { IfOk result (λ contents. length contents.items ≤ 264) }
    ensures fits { IfOk result (λ _. PubFits public.now) }
{
    place_fits(public.place);
    let mut contents = Vec::new(alloc);
    let name = public.name.bytes();
    let PubPlace::In { seg, offset } = public.place else {
        return Ok(contents);
    };
    contents.push(0)?;
    push_index(&mut contents, seg)?;
    push_name(&mut contents, name)?;
    contents.extend_from_slice(&offset.to_le_bytes())?;
    contents.push(0)?;
    Ok(contents)
}

/// Writes a record for each public.
pub fn push_publics(alloc: Global, out: &mut Vec<u8>, publics: &[Pub]) -> Result<(), NoMemory>
    ensures is { OnOk result (out.new.items ≡ out.old.items ++ flat_map pubdef_record publics.now) }
    ensures fits { OnOk result (AllByRecursion PubFits publics.now) }
{
    for public in publics {
        let contents = pubdef_contents(alloc, public)?;
        push_record(out, PUBDEF_32, &contents)?;
    }
    Ok(())
}
