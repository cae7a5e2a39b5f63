//! Worked files: each function's contract is a table of values that the definitions give.

ghost use Rattle.image_model.specs.Worked.OneObject.{WorkedOneObject};
ghost use Rattle.image_model.specs.Worked.Program.{WorkedProgram};
ghost use Rattle.image_model.specs.Worked.Forwarder.{WorkedForwarder};
ghost use Rattle.image_model.specs.Worked.Iterated.{WorkedIterated};
ghost use Rattle.image_model.specs.Worked.Straddling.{WorkedStraddling};
ghost use Rattle.image_model.specs.Worked.Choices.{WorkedForms, WorkedRecords, WorkedBundles};
ghost use Rattle.image_model.specs.Worked.ReadAgain.{WorkedReadAgain, WorkedBytes};
ghost use Rattle.image_model.specs.Worked.Loads.{WorkedLoads};

/// The file of one object file with one 32-bit reference, byte by byte.
pub fn one_object_file()
    ensures { WorkedOneObject }
{}

/// The file of a program with its own stack and an entry after ordinals that nothing uses.
pub fn program_file()
    ensures { WorkedProgram }
{}

/// The file of a library with forwarders, import tables and entries of several kinds.
pub fn forwarder_file()
    ensures { WorkedForwarder }
{}

/// The file of a program with an iterated page and records of 16-bit and 32-bit sources.
pub fn iterated_file()
    ensures { WorkedIterated }
{}

/// The bases and entry points of a load through forwarders.
pub fn loads_have_worlds()
    ensures { WorkedLoads }
{}

/// The file of a library with a reference over a page's end to another module.
pub fn straddling_file()
    ensures { WorkedStraddling }
{}

/// Which form a page has, which records its fixups, and which bundles the entries of a module.
pub fn choices_made()
    ensures forms { WorkedForms }
    ensures records { WorkedRecords }
    ensures bundles { WorkedBundles }
{}

/// These files are read again, and what they mean at other bases is what their links mean.
pub fn files_read_again()
    ensures parts { WorkedReadAgain }
    ensures bytes { WorkedBytes }
{}
