//! The first fault of a record and of a file, where no reading is named.

ghost use Rattle.std.specs.Prelude.{◌≡◌, ◌⊎◌, ℕ, List};
ghost use Rattle.lx_bytes.specs.Cursor.{Cursor};
ghost use Rattle.lx_bytes.specs.LittleEndian.{AreBytes};
ghost use Rattle.obj_types.specs.declared.parts.ObjParts.{ObjParts};
ghost use Rattle.obj_types.specs.declared.refusal.OmfRefusal.{OmfRefusal};
ghost use Rattle.omf_model.specs.Object.{FaultAt};
ghost use Rattle.omf_faults.specs.WrongContents.{WrongContents};
ghost use Rattle.omf_faults.specs.FirstFaults.{GoodContents, WrongModule};

/// The contents of a record spell one that is good after those before it, or have one fault.
pub fn contents_are_good_or_wrong()
    ensures either { (ty : ℕ) (p : ObjParts) (record_at : ℕ) (c : Cursor) →
        AreBytes c.left → GoodContents ty p c ⊎ ((e : OmfRefusal) × WrongContents ty p record_at c e) }
    ensures apart { (ty : ℕ) (p : ObjParts) (record_at : ℕ) (c : Cursor) (e : OmfRefusal) →
        AreBytes c.left → GoodContents ty p c → WrongContents ty p record_at c e → ⊥ }
    ensures one { (ty : ℕ) (p : ObjParts) (record_at : ℕ) (c : Cursor) (e f : OmfRefusal) →
        AreBytes c.left → WrongContents ty p record_at c e → WrongContents ty p record_at c f → e ≡ f }
{}

/// The first fault of a module, in an object file or a library, is that of what stands after its good records: of the
/// frame there, or of the contents in it.
pub fn first_faults_follow_good_records()
    ensures told { (at : ℕ) (bytes : List ℕ) (e : OmfRefusal) →
        AreBytes bytes → FaultAt at bytes e → WrongModule at bytes e }
    ensures first { (at : ℕ) (bytes : List ℕ) (e : OmfRefusal) →
        AreBytes bytes → WrongModule at bytes e → FaultAt at bytes e }
{}
