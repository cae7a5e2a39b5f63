//! Worked values of the definitions, from outside them: each function's contract is a table of values
//! that the definitions give.

ghost use Rattle.session_model.specs.WorkedSessions.{WorkedSessions, WorkedFaults};
ghost use Rattle.session_model.specs.WorkedDeeds.{WorkedFailure, WorkedBreak};
ghost use Rattle.session_model.specs.WorkedWrong.{WorkedNotAsked, WorkedNotDone, WorkedNotMerged};
ghost use Rattle.session_model.specs.WorkedMergers.{WorkedMerges, WorkedNoMerges, WorkedProcesses};
ghost use Rattle.session_model.specs.WorkedRuns.{WorkedRun, WorkedIllegal, WorkedLines};

/// Sessions, with what they say.
pub fn sessions_are_read()
    ensures { WorkedSessions }
{}

/// One case of each fault of a session.
pub fn faults_are_found()
    ensures { WorkedFaults }
{}

/// The session of one module: its history, its merge and its transcript.
pub fn run_is_told()
    ensures { WorkedRun }
{}

/// A load whose initialisation fails, byte by byte, and what follows it.
pub fn failure_is_told()
    ensures { WorkedFailure }
{}

/// A write to code that another process does not see, and a resource that is found, and one that is not.
pub fn break_is_told()
    ensures { WorkedBreak }
{}

/// Histories that are not legal.
pub fn others_are_illegal()
    ensures { WorkedIllegal }
{}

/// Entries that a process may not ask for.
pub fn entries_are_not_asked()
    ensures { WorkedNotAsked }
{}

/// Entries that are not what the loader does.
pub fn entries_are_not_done()
    ensures { WorkedNotDone }
{}

/// Runs that are no merge of a history and a script.
pub fn runs_are_not_merged()
    ensures { WorkedNotMerged }
{}

/// What must be so of touches, of faults and of processes for a run to be a merge.
pub fn runs_are_merged()
    ensures merges { WorkedMerges }
    ensures none { WorkedNoMerges }
    ensures processes { WorkedProcesses }
{}

/// Each kind of line of a transcript.
pub fn lines_are_written()
    ensures { WorkedLines }
{}
