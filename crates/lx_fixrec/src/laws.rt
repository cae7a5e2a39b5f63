//! What the definitions of a page's records say together.

ghost use Rattle.lx_fixrec.specs.Laws.{RecordsKeepFixes};

/// The records of a page have its fixups, and each of them once.
pub fn records_keep_fixes()
    ensures { RecordsKeepFixes }
{}
