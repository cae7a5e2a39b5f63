//! Where the fault of a record is.

ghost use Rattle.std.specs.Prelude.{◌≡◌, ◌≤◌, ◌⊎◌, ℕ, Err, Ok};
ghost use Rattle.lx_bytes.specs.Cursor.{Cursor};
ghost use Rattle.obj_types.specs.declared.parts.ObjParts.{ObjParts};
ghost use Rattle.obj_types.specs.declared.refusal.OmfRefusal.{OmfRefusal};
ghost use Rattle.omf_model.specs.Places.{place, IsInRecord};
ghost use Rattle.omf_model.specs.RawRecord.{RawRecord, raw_at};
ghost use Rattle.omf_model.specs.ReadModule.{contents_of, reader_of, record_at};

/// The place of a record's fault lies in that record: at its first byte where it is not whole, of no known type or
/// has a wrong checksum; otherwise from its first byte to its checksum byte.
pub fn faults_lie_in_their_record()
    ensures around { (c : Cursor) (f : OmfRefusal) → raw_at c ≡ Err f → place f ≡ c.at }
    ensures contents { (ty : ℕ) (p : ObjParts) (at : ℕ) (c : Cursor) (f : OmfRefusal) → at ≤ c.at → reader_of ty p at c ≡ Err f → IsInRecord at c f }
    ensures record { (p : ObjParts) (c : Cursor) (f : OmfRefusal) → record_at p c ≡ Err f → (place f ≡ c.at)
        ⊎ ((r : RawRecord) × (raw_at c ≡ Ok r) × IsInRecord r.at (contents_of r) f) }
{}
