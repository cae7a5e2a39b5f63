//! The fault of a record's contents.

ghost use Rattle.std.specs.Prelude.{◌≡◌, ℕ, Bool, Err};
ghost use Rattle.lx_bytes.specs.Cursor.{Cursor};
ghost use Rattle.lx_bytes.specs.LittleEndian.{AreBytes};
ghost use Rattle.obj_types.specs.declared.refusal.OmfRefusal.{OmfRefusal};
ghost use Rattle.obj_types.specs.declared.parts.ObjParts.{ObjParts};
ghost use Rattle.omf_model.specs.ReadNames.{lnames_at, segdef_at, grpdef_at, pubdef_at, extdef_at, comdef_at};
ghost use Rattle.omf_model.specs.ReadComments.{coment_at};
ghost use Rattle.omf_model.specs.ReadData.{ledata_at, lidata_at};
ghost use Rattle.omf_model.specs.ReadComdat.{comdat_at};
ghost use Rattle.omf_model.specs.ReadFixups.{fixupp_at, modend_at};
ghost use Rattle.omf_model.specs.ReadModule.{reader_of};
ghost use Rattle.omf_faults.specs.Laws.{FailsAs};
ghost use Rattle.omf_faults.specs.NameRecords.{WrongLnames, WrongSegdef, WrongGrpdef, WrongPubdef, WrongExtdef, WrongComdef};
ghost use Rattle.omf_faults.specs.CommentRecords.{WrongComent};
ghost use Rattle.omf_faults.specs.DataRecords.{WrongLedata, WrongLidata};
ghost use Rattle.omf_faults.specs.ComdatRecords.{WrongComdat};
ghost use Rattle.omf_faults.specs.FixupRecords.{WrongFixupp, WrongModend};
ghost use Rattle.omf_faults.specs.WrongContents.{WrongContents};

/// The records of names, segments, groups and symbols have a fault exactly where good fields end and a field follows
/// that is cut off or whose value is not allowed, or the whole breaks a condition.
pub fn name_faults_follow_good_fields()
    ensures lnames { FailsAs lnames_at WrongLnames }
    ensures segdef { (wide : Bool) (p : ObjParts) → FailsAs (segdef_at wide p) (WrongSegdef wide p) }
    ensures grpdef { (p : ObjParts) → FailsAs (grpdef_at p) (WrongGrpdef p) }
    ensures pubdef { (local wide : Bool) (p : ObjParts) → FailsAs (pubdef_at local wide p) (WrongPubdef wide p) }
    ensures extdef { (local : Bool) → FailsAs (extdef_at local) WrongExtdef }
    ensures comdef { FailsAs comdef_at WrongComdef }
{}

/// The same of comments and of data.
pub fn data_faults_follow_good_fields()
    ensures coment { FailsAs coment_at WrongComent }
    ensures ledata { (wide : Bool) (p : ObjParts) (record_at : ℕ) →
        FailsAs (ledata_at wide p record_at) (WrongLedata wide p record_at) }
    ensures lidata { (wide : Bool) (p : ObjParts) (record_at : ℕ) →
        FailsAs (lidata_at wide p record_at) (WrongLidata wide p record_at) }
    ensures comdat { (wide : Bool) (p : ObjParts) (record_at : ℕ) →
        FailsAs (comdat_at wide p record_at) (WrongComdat wide p record_at) }
{}

/// The same of fixups and of a module's end.
pub fn fixup_faults_follow_good_fields()
    ensures fixupp { (wide : Bool) (p : ObjParts) (record_at : ℕ) →
        FailsAs (fixupp_at wide p record_at) (WrongFixupp wide p record_at) }
    ensures modend { (wide : Bool) (p : ObjParts) → FailsAs (modend_at wide p) (WrongModend wide p) }
{}

/// Whatever its type, a record's contents have a fault exactly where `WrongContents` says so: what a reading refuses is
/// wrong there, and what is wrong there it refuses with that fault and no other.
pub fn faults_follow_good_fields()
    ensures refused { (ty : ℕ) (p : ObjParts) (record_at : ℕ) (c : Cursor) (e : OmfRefusal) →
        AreBytes c.left → reader_of ty p record_at c ≡ Err e → WrongContents ty p record_at c e }
    ensures first { (ty : ℕ) (p : ObjParts) (record_at : ℕ) (c : Cursor) (e : OmfRefusal) →
        AreBytes c.left → WrongContents ty p record_at c e → reader_of ty p record_at c ≡ Err e }
{}
