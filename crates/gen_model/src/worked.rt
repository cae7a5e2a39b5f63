//! Worked values of the definitions, from outside them.

ghost use Rattle.gen_model.specs.WorkedModules.{WorkedModules};
ghost use Rattle.gen_model.specs.WorkedSessions.{WorkedSessions};
ghost use Rattle.gen_model.specs.WorkedSums.{WorkedSums};

/// Parts of modules and of their definition files.
pub fn modules_are_made()
    ensures { WorkedModules }
{}

/// The text of a session, and the names of files.
pub fn sessions_are_made()
    ensures { WorkedSessions }
{}

/// A word, and the line.
pub fn lines_are_told()
    ensures { WorkedSums }
{}
