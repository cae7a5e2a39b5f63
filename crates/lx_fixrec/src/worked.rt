//! Worked values of the definitions, from outside them.

ghost use Rattle.lx_fixrec.specs.Worked.{WorkedWriting};

/// Fixups of pages and the bytes of their records.
pub fn pages_written()
    ensures { WorkedWriting }
{}
