//! Object files ("Relocatable Object Module Format").

ghost use Rattle.std.specs.Prelude.{◌≡◌, ◌++◌, ◌≤◌, ◌<◌, OnOk, IfOk, IfSome, length};
ghost use Rattle.omf_model.specs.Object.{IsModule, Obj};
ghost use Rattle.implib_model.specs.Framed.{record_of, name_bytes};
ghost use Rattle.omf_write.specs.ObjectBytes.{segment_records, symbol_records, start_bytes, end_record, object_bytes};
ghost use Rattle.omf_write.specs.ObjectFits.{SegmentsFit, SymbolsFit, StartFits, ObjectFits};
ghost use Rattle.omf_write.specs.ObjectNames.{names_of};
ghost use Rattle.omf_write.specs.Writable.{IsWritable};

use crate::comments::{push_exports, push_imports, push_libraries};
use crate::fields::push_name;
use crate::fixups::{fixes_fit, push_fix_data};
use crate::framed::push_record;
use crate::pieces::push_data;
use crate::segments::{push_groups, push_segments};
use crate::symbols::{push_externals, push_publics};
use crate::tables::names_of;
use lx_types::{Name, NoMemory};
use obj_types::{ObjModule, StartAt};
use omf_frame::record_type::{MODEND, MODEND_32, THEADR};
use std::alloc::Global;

// Module type: a main module with a start address that is relocated.
const STARTS: u8 = 0xC1;

// Writes the header.
fn push_header(alloc: Global, out: &mut Vec<u8>, name: &Name) -> Result<(), NoMemory>
    ensures is { OnOk result (out.new.items ≡ out.old.items ++ record_of 0x80 (name_bytes name.now)) }
    ensures fits { OnOk result (length name.now ≤ 255) }
{
    let mut contents = Vec::new(alloc);
    push_name(&mut contents, name.bytes())?;
    push_record(out, THEADR, &contents)?;
    Ok(())
}

// Writes names, segments and groups.
fn push_segment_records(alloc: Global, out: &mut Vec<u8>, m: &ObjModule) -> Result<(), NoMemory>
    requires { IsWritable m.now }
    ensures is { OnOk result (out.new.items ≡ out.old.items ++ segment_records (names_of m.now) m.now) }
    ensures fits { OnOk result (SegmentsFit m.now) }
{
    let names = names_of(alloc, m)?;
    out.extend_from_slice(&names.records)?;
    push_segments(alloc, out, &names.table, m.segs.as_slice())?;
    push_groups(alloc, out, &names.table, m.groups.as_slice())?;
    Ok(())
}

// Writes externals, publics, imports, exports and default libraries.
fn push_symbol_records(alloc: Global, out: &mut Vec<u8>, m: &ObjModule) -> Result<(), NoMemory>
    requires { IsWritable m.now }
    ensures is { OnOk result (out.new.items ≡ out.old.items ++ symbol_records m.now) }
    ensures fits { OnOk result (SymbolsFit m.now) }
{
    push_externals(alloc, out, m.exts.as_slice())?;
    push_publics(alloc, out, m.pubs.as_slice())?;
    push_imports(alloc, out, m.imports.as_slice())?;
    push_exports(alloc, out, m.exports.as_slice())?;
    push_libraries(alloc, out, m.deflibs.as_slice())?;
    Ok(())
}

// The contents of a MODEND record with a start address.
fn start_contents(alloc: Global, start: &StartAt) -> Result<Vec<u8>, NoMemory>
    ensures is { IfOk result (λ contents. contents.items ≡ start_bytes start.now) }
    ensures short { IfOk result (λ contents. length contents.items < 65535) }
    ensures fits { IfOk result (λ _. StartFits start.now) }
{
    let mut contents = Vec::new(alloc);
    contents.push(STARTS)?;
    push_fix_data(&mut contents, start.frame, start.goal, start.disp)?;
    Ok(contents)
}

// Writes the module's end.
fn push_end(alloc: Global, out: &mut Vec<u8>, start: &Option<StartAt>) -> Result<(), NoMemory>
    ensures is { OnOk result (out.new.items ≡ out.old.items ++ end_record start.now) }
    ensures fits { OnOk result (IfSome start.now StartFits) }
{
    let Some(start) = start else {
        push_record(out, MODEND, &[0])?;
        return Ok(());
    };
    let contents = start_contents(alloc, start)?;
    push_record(out, MODEND_32, &contents)?;
    Ok(())
}

// The bytes of the object file.
fn written(alloc: Global, m: &ObjModule) -> Result<Vec<u8>, NoMemory>
    requires { IsWritable m.now }
    ensures is { IfOk result (λ bytes. bytes.items ≡ object_bytes m.now) }
    ensures fits { IfOk result (λ _. ObjectFits m.now) }
{
    let mut out = Vec::new(alloc);
    push_header(alloc, &mut out, &m.name)?;
    push_segment_records(alloc, &mut out, m)?;
    push_symbol_records(alloc, &mut out, m)?;
    fixes_fit(m.fixes.as_slice());
    push_data(alloc, &mut out, m.pieces.as_slice(), m.fixes.as_slice())?;
    push_end(alloc, &mut out, &m.start)?;
    Ok(out)
}

/// The bytes of an object file that is read as this module ("Object Record Order"): a record for each name, segment,
/// group, external, public, import, export and default library, and for each piece its data record and after it the
/// records of its fixups, 64 to a record. Checksums are written. It refuses nothing: `NoMemory` is want of memory.
///
/// The module is whole. It has at most 32,767 segments, groups, externals, and different names of segments, classes
/// and groups, no debug segment, no COMDAT, no local or communal name and no constant. A group's record has room for
/// its members, an import fits `import_module`, and an export has an internal name. A piece has at most 1,024 bytes. Each
/// fixup lies within one piece and shares no byte with another, and the fixups stand in the order of their pieces.
pub fn object(alloc: Global, m: &ObjModule) -> Result<Vec<u8>, NoMemory>
    requires { IsWritable m.now }
    ensures written { IfOk result (λ bytes. bytes.items ≡ object_bytes m.now) }
    ensures read { IfOk result (λ bytes. IsModule bytes.items m.now) }
    ensures file { IfOk result (λ bytes. Obj bytes.items m.now) }
{
    written(alloc, m)
}
