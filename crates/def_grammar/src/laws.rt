//! Laws over the definitions, each the contract of a function that does nothing.

ghost use Rattle.def_grammar.specs.Laws.{FaultsAreFirst, FirstAreFaults, GrammaticalAreRead, ReadAreGrammatical};
ghost use Rattle.def_grammar.specs.Worked.{WorkedBorders, WorkedTwice};

/// What is read of a file is what its statements say, by the grammar.
pub fn read_files_are_grammatical()
    ensures { ReadAreGrammatical }
{}

/// A file that has statements by the grammar is read, as what they say.
pub fn grammatical_files_are_read()
    ensures { GrammaticalAreRead }
{}

/// A file is refused exactly at its first token with which no grammatical file begins as it does, by the kind of its cause.
pub fn faults_are_the_first()
    ensures only { FaultsAreFirst }
    ensures all { FirstAreFaults }
{}

/// Files whose first fault is known from outside: each statement that may stand once stands twice, and what stands at the border
/// between a statement and an item.
pub fn borders_are_known()
    ensures twice { WorkedTwice }
    ensures borders { WorkedBorders }
{}
