//! Worked values of the definitions, from outside them: each function's contract is a table of values that the definitions
//! give.

ghost use Rattle.show_model.specs.Worked.{WorkedFile, WorkedKinds, WorkedTexts};

/// A heading with two lines, and bytes that are told with escapes.
pub fn texts_are_worked()
    ensures { WorkedTexts }
{}

/// What the first bytes of files make them.
pub fn kinds_are_told_apart()
    ensures { WorkedKinds }
{}

/// A resource file of one item, and one that is cut off.
pub fn files_are_shown()
    ensures { WorkedFile }
{}
