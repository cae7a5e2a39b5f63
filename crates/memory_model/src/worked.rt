//! Worked values of the definitions, from outside them: each function's contract is a table of values that the definitions
//! give.

ghost use Rattle.memory_model.specs.Worked.{WorkedAlone, WorkedApart, WorkedImport, WorkedRefusals};

/// A library alone, and a program: where its objects stand, which pages are invalid, and where its last page ends.
pub fn modules_are_held()
    ensures { WorkedAlone }
{}

/// Two libraries that are linked at one base, of which one imports the other.
pub fn libraries_stand_apart()
    ensures { WorkedApart }
{}

/// A reference to the entry point of another module.
pub fn imports_are_held()
    ensures { WorkedImport }
{}

/// One case of each refusal.
pub fn refusals_are_told()
    ensures { WorkedRefusals }
{}
