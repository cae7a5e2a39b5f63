//! What the definitions say together.

ghost use Rattle.show_model.specs.Laws.{TextIsPrintable};

/// What is told has no bytes but those from 20h to 7Eh and the ends of lines, whatever bytes the file has.
pub fn text_is_printable()
    ensures { TextIsPrintable }
{}
