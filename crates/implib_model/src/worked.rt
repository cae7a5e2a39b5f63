//! Worked values of the definitions, from outside them.

ghost use Rattle.implib_model.specs.Worked.{WorkedImports};

/// Imports by ordinal and by name, and a library of one of them.
pub fn imports_are_written()
    ensures { WorkedImports }
{}
