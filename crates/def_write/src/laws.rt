//! What the definitions give for values whose text is known from outside.

ghost use Rattle.def_write.specs.Examples.{WorkedTexts};

/// What is written for a value with exports, and for one with each statement.
pub fn worked_texts()
    ensures { WorkedTexts }
{}
