//! Readings that go on up to an end, one equation a turn, as a loop takes them. More turns than bytes change
//! nothing.

ghost use Rattle.std.specs.Prelude.{◌≡◌, ◌≢◌, ◌≤◌, ◌++◌, ◌∷◌, [], ℕ, List, Bool, true, false, Ok, Err, length};
ghost use Rattle.lx_bytes.specs.Cursor.{Cursor};
ghost use Rattle.lx_bytes.specs.LittleEndian.{AreBytes};
ghost use Rattle.obj_types.specs.declared.object.ObjModule.{ObjModule};
ghost use Rattle.obj_types.specs.declared.parts.ObjParts.{ObjParts};
ghost use Rattle.obj_types.specs.declared.refusal.OmfRefusal.{OmfRefusal};
ghost use Rattle.omf_fields.specs.Onto.{onto};
ghost use Rattle.omf_model.specs.Record.{Record, FixField, is_end};
ghost use Rattle.omf_model.specs.Add.{add, add_field};
ghost use Rattle.omf_model.specs.ReadAfter.{then_add};
ghost use Rattle.omf_model.specs.ReadFixups.{field_at, fields_within, fields_at, fixupp_at};
ghost use Rattle.omf_model.specs.ReadModule.{record_at, rest_within, rest_at, module_at, up_to_page, ends_library, modules_within, modules_at};

/// The fields of a FIXUPP record.
pub fn fields_turn_by_turn()
    ensures next { (wide : Bool) (at : ℕ) (p : ObjParts) (c : Cursor) (f : FixField) (d : Cursor) → AreBytes c.left → c.left ≢ [] →
        field_at wide p at c ≡ Ok (f, d) → then_add p (fixupp_at wide p at c) ≡ then_add (add_field p f) (fixupp_at wide (add_field p f) at d) }
    ensures refused { (wide : Bool) (at : ℕ) (p : ObjParts) (c : Cursor) (refusal : OmfRefusal) → AreBytes c.left → c.left ≢ [] →
        field_at wide p at c ≡ Err refusal → then_add p (fixupp_at wide p at c) ≡ Err refusal }
    ensures done { (wide : Bool) (at : ℕ) (p : ObjParts) (c : Cursor) → c.left ≡ [] → then_add p (fixupp_at wide p at c) ≡ Ok p }
    ensures more { (wide : Bool) (at most : ℕ) (p : ObjParts) (c : Cursor) → AreBytes c.left → length c.left ≤ most →
        fields_within wide at most p c ≡ fields_at wide at p c }
{}

/// The records of a module up to its end.
pub fn records_turn_by_turn()
    ensures next { (p : ObjParts) (c : Cursor) (r : Record) (d : Cursor) → AreBytes c.left → record_at p c ≡ Ok (r, d) → is_end r ≡ false →
        rest_at p c ≡ rest_at (add p r) d }
    ensures last { (p : ObjParts) (c : Cursor) (r : Record) (d : Cursor) → AreBytes c.left → record_at p c ≡ Ok (r, d) → is_end r ≡ true →
        rest_at p c ≡ Ok (add p r, d) }
    ensures refused { (p : ObjParts) (c : Cursor) (refusal : OmfRefusal) → AreBytes c.left → record_at p c ≡ Err refusal → rest_at p c ≡ Err refusal }
    ensures more { (most : ℕ) (p : ObjParts) (c : Cursor) → AreBytes c.left → length c.left ≤ most → rest_within most p c ≡ rest_at p c }
{}

/// The modules of a library, after those that were read.
pub fn modules_turn_by_turn()
    ensures next { (size : ℕ) (ms : List ObjModule) (c : Cursor) (m : ObjModule) (d : Cursor) → AreBytes c.left → ends_library c.left ≡ false →
        module_at c ≡ Ok (m, d) → onto ms (modules_at size c) ≡ onto (ms ++ m ∷ []) (modules_at size (up_to_page size d)) }
    ensures refused { (size : ℕ) (ms : List ObjModule) (c : Cursor) (refusal : OmfRefusal) → AreBytes c.left → ends_library c.left ≡ false →
        module_at c ≡ Err refusal → onto ms (modules_at size c) ≡ Err refusal }
    ensures done { (size : ℕ) (ms : List ObjModule) (c : Cursor) → AreBytes c.left → ends_library c.left ≡ true → onto ms (modules_at size c) ≡ Ok ms }
    ensures more { (most size : ℕ) (c : Cursor) → AreBytes c.left → length c.left ≤ most → modules_within most size c ≡ modules_at size c }
{}
