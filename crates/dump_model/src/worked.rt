//! Worked values of the definitions, from outside them: each function's contract is a table of values that the
//! definitions give.

ghost use Rattle.dump_model.specs.Worked.{WorkedDump, WorkedLines, WorkedNames};

/// The dump of a library with one page of zeros that holds the address of its own start.
pub fn library_is_told()
    ensures { WorkedDump }
{}

/// A line of each kind.
pub fn lines_are_told()
    ensures { WorkedLines }
{}

/// Names, the empty one among them.
pub fn names_are_told()
    ensures { WorkedNames }
{}
