//! Object files, record by record.

ghost use Rattle.std.specs.Prelude.{◌≡◌, ◌<◌, ◌≤◌, IfOk, OnOk, MatchResult, Err, length};
ghost use Rattle.lx_types.specs.Answers.{if_said, Gives, Answers};
ghost use Rattle.lx_bytes.specs.LittleEndian.{AreBytes};
ghost use Rattle.omf_data.specs.Marks.{AreMarks};
ghost use Rattle.omf_model.specs.Begun.{IsBegun, IsWholeSoFar};
ghost use Rattle.omf_model.specs.ReadAfter.{read_after};
ghost use Rattle.omf_model.specs.Object.{Obj, FirstFault};
ghost use Rattle.omf_model.specs.RawRecord.{raw_at};
ghost use Rattle.omf_model.specs.ReadModule.{header_at, module_at, object_of, rest_at};
ghost use Rattle.omf_files.specs.Modules.{StandsAt, begun_at, ends_module, finished_at};

use crate::start::modend;
use lx_bytes::Cur;
use lx_types::{Fail, Name};
use obj_types::{ObjModule, ObjParts, OmfRefusal};
use omf_comdat::{comdat_marked, finished};
use omf_data::{Marks, ledata_marked, lidata_marked};
use omf_fields::Fields;
use omf_fix::fixups_marked;
use omf_frame::record_type::{
    COMDAT, COMDAT_32, COMDEF, COMENT, EXTDEF, FIXUPP, FIXUPP_32, GRPDEF, LEDATA, LEDATA_32,
    LEXTDEF, LEXTDEF_32, LHEADR, LIDATA, LIDATA_32, LINNUM, LINNUM_32, LNAMES, LPUBDEF, LPUBDEF_32,
    MODEND, MODEND_32, PUBDEF, PUBDEF_32, SEGDEF, SEGDEF_32, THEADR,
};
use omf_frame::{FrameRefusal, Rec, next_record};
use omf_names::{comdef, coment, extdef, grpdef, names, pubdef, segdef};
use std::alloc::Global;

/// The next record, and the cursor after it.
fn record<'a>(cur: &mut Cur<'a>) -> Result<Rec<'a>, OmfRefusal>
    ensures read { MatchResult result (λ rec. StandsAt rec cur.old cur.new) (λ refusal. raw_at cur.old ≡ Err refusal) }
    ensures shorter { OnOk result (length cur.new.left < length cur.old.left) }
    ensures bytes { AreBytes cur.old.left }
{
    let _left = cur.left();
    match next_record(cur) {
        Ok(rec) => Ok(rec),
        Err(FrameRefusal::Short { at }) => Err(OmfRefusal::Short { at }),
        Err(FrameRefusal::BadChecksum { at, sum }) => Err(OmfRefusal::BadChecksum { at, sum }),
        Err(FrameRefusal::UnknownType { at, ty }) => Err(OmfRefusal::UnknownType { at, ty }),
    }
}

/// Whether a record of this type ends the module.
fn is_end(ty: u8) -> bool
    ensures { result ≡ ends_module ty }
{
    ty == MODEND || ty == MODEND_32
}

/// Adds what a record says. A later THEADR or LHEADR, and LINNUM, are passed over. After a refusal nothing is told
/// of the parts.
fn add_record(
    alloc: Global,
    rec: &Rec,
    into: &mut ObjParts,
    marks: &mut Marks,
) -> Result<(), Fail<OmfRefusal>>
    requires begun { IsBegun into.old }
    requires marks { AreMarks marks.old into.old }
    ensures read { Gives (λ _. into.new) if_said result (read_after into.old rec.now) }
    ensures marks { OnOk result (AreMarks marks.new into.new) }
{
    match rec.ty {
        THEADR | LHEADR => Ok(()),
        LINNUM | LINNUM_32 => Ok(()),
        COMENT => coment(alloc, rec, into),
        MODEND | MODEND_32 => modend(rec, into),
        EXTDEF | LEXTDEF | LEXTDEF_32 => extdef(alloc, rec, into),
        PUBDEF | PUBDEF_32 | LPUBDEF | LPUBDEF_32 => pubdef(alloc, rec, into),
        LNAMES => names(alloc, rec, into),
        SEGDEF | SEGDEF_32 => segdef(alloc, rec, into),
        GRPDEF => grpdef(alloc, rec, into),
        FIXUPP | FIXUPP_32 => fixups_marked(alloc, rec, into, marks),
        LEDATA | LEDATA_32 => ledata_marked(alloc, rec, into, marks),
        LIDATA | LIDATA_32 => lidata_marked(alloc, rec, into, marks),
        COMDEF => comdef(alloc, rec, into),
        COMDAT | COMDAT_32 => comdat_marked(alloc, rec, into, marks),
        _ => Err(Fail::Said(OmfRefusal::UnknownType {
            at: rec.at,
            ty: rec.ty,
        })),
    }
}

/// The module that the record at the cursor begins, a THEADR or an LHEADR.
fn begin(alloc: Global, cur: &mut Cur) -> Result<ObjParts, Fail<OmfRefusal>>
    ensures read { Gives (λ p. (p, cur.new)) if_said result (begun_at cur.old) }
    ensures begun { IfOk result IsBegun }
    ensures shorter { OnOk result (length cur.new.left < length cur.old.left) }
    ensures bytes { AreBytes cur.old.left }
{
    let at = cur.at();
    let rec = match record(cur) {
        Ok(rec) => rec,
        Err(refusal) => return Err(Fail::Said(refusal)),
    };
    if rec.ty != THEADR && rec.ty != LHEADR {
        return Err(Fail::Said(OmfRefusal::BadField { at }));
    }
    let mut fields = Fields::of(&rec);
    let bytes = match fields.name() {
        Ok(bytes) => bytes,
        Err(refusal) => return Err(Fail::Said(refusal)),
    };
    let name = Name::of_short(alloc, bytes)?;
    let mut parts = ObjParts::fresh(alloc);
    parts.module.name = name;
    Ok(parts)
}

/// Adds what the records after the first one say, up to the module's MODEND.
fn add_records(alloc: Global, cur: &mut Cur, parts: &mut ObjParts) -> Result<(), Fail<OmfRefusal>>
    requires { IsBegun parts.old }
    ensures read { Gives (λ _. (parts.new, cur.new)) if_said result (rest_at parts.old cur.old) }
    ensures whole { OnOk result (IsWholeSoFar parts.new) }
    ensures shorter { OnOk result (length cur.new.left ≤ length cur.old.left) }
{
    let mut marks = Marks::new(alloc);
    'records: while cur.left() > 0 {
        let rec = match record(cur) {
            Ok(rec) => rec,
            Err(refusal) => return Err(Fail::Said(refusal)),
        };
        add_record(alloc, &rec, parts, &mut marks)?;
        if is_end(rec.ty) {
            return Ok(());
        }
    }
    Err(Fail::Said(OmfRefusal::Short { at: cur.at() }))
}

/// The module, from the records after its first one up to its MODEND.
fn finish(alloc: Global, cur: &mut Cur, begun: ObjParts) -> Result<ObjModule, Fail<OmfRefusal>>
    requires { IsBegun begun }
    ensures read { Gives (λ m. (m, cur.new)) if_said result (finished_at begun cur.old) }
    ensures shorter { OnOk result (length cur.new.left ≤ length cur.old.left) }
{
    let mut parts = begun;
    add_records(alloc, cur, &mut parts)?;
    Ok(finished(alloc, parts)?)
}

/// The module at the cursor, and the cursor after it.
pub fn module(alloc: Global, cur: &mut Cur) -> Result<ObjModule, Fail<OmfRefusal>>
    ensures read { Gives (λ m. (m, cur.new)) if_said result (module_at cur.old) }
    ensures shorter { OnOk result (length cur.new.left < length cur.old.left) }
    ensures bytes { AreBytes cur.old.left }
{
    let parts = begin(alloc, cur)?;
    finish(alloc, cur, parts)
}

/// The module that an object file means ("Relocatable Object Module Format", "Object Record Order"). What stands
/// after its MODEND is not read. The first fault in file order is the one that is refused.
pub fn read_object(alloc: Global, bytes: &[u8]) -> Result<ObjModule, Fail<OmfRefusal>>
    ensures read { Gives (λ m. m) if_said result (object_of bytes.now) }
    ensures meant { Answers result (Obj bytes.now) (FirstFault bytes.now) }
{
    let mut cur = Cur::of(bytes);
    module(alloc, &mut cur)
}
