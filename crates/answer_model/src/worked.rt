//! Worked values of the definitions, from outside them: each function's contract is a table of values that the definitions
//! give.

ghost use Rattle.answer_model.specs.WorkedCheck.{WorkedCheck};
ghost use Rattle.answer_model.specs.WorkedGen.{WorkedGenSaves, WorkedGenWords};
ghost use Rattle.answer_model.specs.WorkedMemory.{WorkedMemory};
ghost use Rattle.answer_model.specs.WorkedRuns.{WorkedLineFiles, WorkedRunWords, WorkedRuns};
ghost use Rattle.answer_model.specs.WorkedShow.{WorkedShow};

/// The words of a run, which are no command of the tool.
pub fn run_words_are_known()
    ensures { WorkedRunWords }
{}

/// What is said of sessions that are empty, absent, wrong, or name a file that is absent.
pub fn runs_are_said()
    ensures { WorkedRuns }
{}

/// Which files module lines load, in which order, and how it is told that modules are no library.
pub fn line_files_are_asked()
    ensures { WorkedLineFiles }
{}

/// The words of `gen`, with numbers from 1 to 64 alone.
pub fn gen_words_are_known()
    ensures { WorkedGenWords }
{}

/// The order in which `gen` saves its files, and what is said where one is not saved.
pub fn gen_saves_are_said()
    ensures { WorkedGenSaves }
{}

/// The words of `memory`, the text of what modules hold, and what small modules come to.
pub fn memory_is_told()
    ensures { WorkedMemory }
{}

/// The words of `show`, and how its text ends.
pub fn show_is_told()
    ensures { WorkedShow }
{}

/// The words of `check`, which are no run and no command of the tool, and its lines.
pub fn check_is_told()
    ensures { WorkedCheck }
{}
