//! What the definitions of a check say together.

ghost use Rattle.check_model.specs.Laws.{FirstWrongIsOne, NothingWrongIsRun, TextFaultIsOne, TextsTellRuns};

/// Nothing is wrong with what a text tells exactly where it is a run of the session, and the numbers are the run's.
pub fn nothing_wrong_is_a_run()
    ensures { NothingWrongIsRun }
{}

/// What is told goes wrong at one place first, in one way, and does so only where something is wrong.
pub fn first_wrong_is_one()
    ensures { FirstWrongIsOne }
{}

/// Bytes stop being a text in the form of a transcript at one line first.
pub fn text_fault_is_one()
    ensures { TextFaultIsOne }
{}

/// What a run and its own numbers are told by is the run's transcript.
pub fn texts_tell_runs()
    ensures { TextsTellRuns }
{}
