//! Worked values of the definitions, from outside them: each function's contract is a table of values
//! that the definitions give.

ghost use Rattle.check_model.specs.Worked.{WorkedRight, WorkedLines, WorkedTexts, WorkedWrong};

/// The session of one module, of whose transcript nothing is wrong.
pub fn run_is_right()
    ensures { WorkedRight }
{}

/// At which lines entries, steady lines and the last line stand.
pub fn lines_are_numbered()
    ensures { WorkedLines }
{}

/// Bytes that are no text, from which line on.
pub fn texts_are_refused()
    ensures { WorkedTexts }
{}

/// Each kind of what can be wrong.
pub fn first_wrong_is_told()
    ensures { WorkedWrong }
{}
