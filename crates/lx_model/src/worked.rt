//! Worked values of the definitions, from outside them: each function's contract is a table of
//! values that the definitions give.

ghost use Rattle.lx_model.specs.Worked.Records.{WorkedRecords, WorkedRecordFaults, WorkedGroups};
ghost use Rattle.lx_model.specs.Worked.Packed.{WorkedPacking};
ghost use Rattle.lx_model.specs.Worked.Tables.{WorkedNames, WorkedEntries};
ghost use Rattle.lx_model.specs.Worked.Exports.{WorkedExports};
ghost use Rattle.lx_model.specs.Worked.File.{WorkedFile, WorkedFaults};
ghost use Rattle.lx_model.specs.Worked.Header.{WorkedHeader, WorkedOrder, WorkedStub};
ghost use Rattle.lx_model.specs.Worked.Pages.{WorkedPages, WorkedTargets, WorkedClasses};
ghost use Rattle.lx_model.specs.Worked.Words.{WorkedGathering, WorkedBytes};
ghost use Rattle.lx_model.specs.Worked.Library.{WorkedFields, WorkedLibrary};
ghost use Rattle.lx_model.specs.Worked.Health.{WorkedHealth};
ghost use Rattle.lx_model.specs.Worked.Cycles.{WorkedCycles};
ghost use Rattle.lx_model.specs.Worked.Resources.{WorkedResources};

/// Fixup records of each form, and what is wrong first with others.
pub fn records_read()
    ensures read { WorkedRecords }
    ensures refused { WorkedRecordFaults }
{}

/// Groups of iterated data.
pub fn groups_read()
    ensures { WorkedGroups }
{}

/// Pages, and the iterated data that they are written in.
pub fn pages_packed()
    ensures { WorkedPacking }
{}

/// Name tables, import modules and entry tables, and what is wrong first with others.
pub fn tables_read()
    ensures names { WorkedNames }
    ensures entries { WorkedEntries }
{}

/// The tables of three exports, one of them without an ordinal of its own, and of two of other
/// kinds.
pub fn exports_written()
    ensures { WorkedExports }
{}

/// A module of one page: its parts, and its bytes at two bases.
pub fn file_means()
    ensures { WorkedFile }
{}

/// What is wrong with that module after a change, and where.
pub fn file_refused()
    ensures { WorkedFaults }
{}

/// What each field of the header may be, and which of two faults of a file comes first.
pub fn header_judged()
    ensures fields { WorkedHeader }
    ensures order { WorkedOrder }
{}

/// The module of one page after a DOS stub: its parts, and the places of its faults.
pub fn stub_passed()
    ensures { WorkedStub }
{}

/// Where the data of pages stands, which targets there are, and who sees writes to objects.
pub fn pages_placed()
    ensures pages { WorkedPages }
    ensures targets { WorkedTargets }
    ensures classes { WorkedClasses }
{}

/// What the sources of each kind put, and where they cross a page's end.
pub fn fields_put()
    ensures { WorkedFields }
{}

/// Where entries lead through forwarders, and which modules can be loaded.
pub fn library_means()
    ensures { WorkedLibrary }
{}

/// Modules with two causes not to be loaded, and which of them counts.
pub fn healths_are_ordered()
    ensures { WorkedHealth }
{}

/// Modules that import each other, and one that imports itself.
pub fn cycles_are_ordered()
    ensures { WorkedCycles }
{}

/// Which entries of a resource table count, and which of them is found.
pub fn resources_are_found()
    ensures { WorkedResources }
{}

/// Which modules are a library, entry points by key, and bytes by offset.
pub fn libraries_gathered()
    ensures gathered { WorkedGathering }
    ensures bytes { WorkedBytes }
{}
