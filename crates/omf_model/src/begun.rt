//! What an unfinished module is, record after record.

ghost use Rattle.std.specs.Prelude.{◌≡◌, ℕ, List, Ok, false};
ghost use Rattle.lx_bytes.specs.Cursor.{Cursor};
ghost use Rattle.lx_bytes.specs.LittleEndian.{AreBytes};
ghost use Rattle.obj_types.specs.declared.parts.ObjParts.{ObjParts};
ghost use Rattle.obj_types.specs.Fresh.{fresh_parts};
ghost use Rattle.obj_types.specs.Whole.{WholeModule};
ghost use Rattle.omf_model.specs.Record.{Record, header, is_end};
ghost use Rattle.omf_model.specs.Add.{add};
ghost use Rattle.omf_model.specs.Begun.{IsBegun, IsWholeSoFar};
ghost use Rattle.omf_model.specs.Finished.{finished};
ghost use Rattle.omf_model.specs.Good.{GoodAfter};
ghost use Rattle.omf_model.specs.ReadModule.{reader_of};

/// A module is begun by its header and goes on with good records, which are those that are read. It is whole so
/// far, and the record that ends it makes a whole module.
pub fn unfinished_module()
    ensures begins { (name : List ℕ) → IsBegun (add fresh_parts (header name)) }
    ensures goes_on { (p : ObjParts) (r : Record) → IsBegun p → GoodAfter p r → is_end r ≡ false → IsBegun (add p r) }
    ensures read { (p : ObjParts) (ty at : ℕ) (c : Cursor) (r : Record) → AreBytes c.left → reader_of ty p at c ≡ Ok r → GoodAfter p r }
    ensures gives { (p : ObjParts) → IsBegun p → IsWholeSoFar p }
    ensures ends { (p : ObjParts) (r : Record) → IsBegun p → GoodAfter p r → WholeModule (finished (add p r)) }
{}
