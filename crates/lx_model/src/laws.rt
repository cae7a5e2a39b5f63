//! What the definitions say together.

ghost use Rattle.lx_model.specs.JoinedEntries.{BundlesAreJoined};
ghost use Rattle.lx_model.specs.Laws.{MeansOne, MeansOrFails, FaultMeansNone, MeansSound, OrderIsReached, ReachedIsOrdered, OrderHasEachOnce, OrderIsInLibrary, OrderIsClosed, OrderEndsWithItself, LoopComesBack, ComesBackLoops};
ghost use Rattle.lx_model.specs.ModuleLaws.{ReadIsSound, ReadIsNamed, DataExpands, FitHasSpots, RecordsAreGood, TargetsAreThere, ReferencesAreListed};
ghost use Rattle.lx_model.specs.FaultLaws.{EntryFaults, HeaderFaults, NameFaults, ImportFaults, GroupFaults, BundleFaults, RecordFaults};
ghost use Rattle.lx_model.specs.TableLaws.{NamesGoOn, ImportsGoOn, BundlesGoOn, RecordsGoOn, GroupsGoOn, OneTargetMore, NamesReadAgain, ImportsReadAgain, EntriesReadAgain, RecordsReadAgain, GroupsReadAgain, HeaderReadAgain, ObjectsReadAgain, PagesReadAgain, DoublewordsReadAgain, RecordIsSpelled, RecordsAreSpelled, NamesAreSpelled, ImportsAreSpelled, EntriesAreSpelled, GroupsAreSpelled};
ghost use Rattle.lx_model.specs.ExportLaws.{ExportsReadAgain, BundlesAreOne};

/// A file has one meaning or one first fault.
pub fn files_mean_one_module()
    ensures one { MeansOne }
    ensures either { MeansOrFails }
    ensures not_both { FaultMeansNone }
{}

/// The parts that a file lists are those of a `Module`.
pub fn parts_are_sound()
    ensures { MeansSound }
{}

/// What stands after the first item of a table is read as a table that begins there, and an item
/// takes a byte or more.
pub fn tables_go_on()
    ensures names { NamesGoOn }
    ensures imports { ImportsGoOn }
    ensures bundles { BundlesGoOn }
    ensures records { RecordsGoOn }
    ensures groups { GroupsGoOn }
{}

/// The different targets of one target more.
pub fn one_target_more()
    ensures { OneTargetMore }
{}

/// A module that was read fits together and has a name, its iterated pages give bytes, its records have no fault,
/// their targets are there, and those outside its own objects are listed.
pub fn read_modules_are_whole()
    ensures sound { ReadIsSound }
    ensures named { ReadIsNamed }
    ensures pages { DataExpands }
    ensures records { RecordsAreGood }
    ensures targets { TargetsAreThere }
    ensures references { ReferencesAreListed }
{}

/// In a library of modules that were read, each source of a fit module has a spot: what its fixups
/// put is what the definitions say of an address.
pub fn fit_modules_have_spots()
    ensures { FitHasSpots }
{}

/// Name tables, import modules, entry tables, fixup records and groups of iterated data that are
/// written by the format are read as what was written; so are the header, the object table, the
/// page table, and the doublewords of the fixup page table.
pub fn written_is_read()
    ensures names { NamesReadAgain }
    ensures imports { ImportsReadAgain }
    ensures entries { EntriesReadAgain }
    ensures records { RecordsReadAgain }
    ensures groups { GroupsReadAgain }
    ensures header { HeaderReadAgain }
    ensures objects { ObjectsReadAgain }
    ensures pages { PagesReadAgain }
    ensures doublewords { DoublewordsReadAgain }
{}

/// An entry table that is written for exports is read as their entries, by rising ordinals, and
/// there is one such table.
pub fn exports_are_read()
    ensures read { ExportsReadAgain }
    ensures one { BundlesAreOne }
{}

/// Fixup records, name tables, import modules, entry tables and groups of iterated data that are
/// read are spelled as the format says.
pub fn read_is_spelled()
    ensures record_spelled { RecordIsSpelled }
    ensures records_spelled { RecordsAreSpelled }
    ensures names_spelled { NamesAreSpelled }
    ensures imports_spelled { ImportsAreSpelled }
    ensures entries_spelled { EntriesAreSpelled }
    ensures groups_spelled { GroupsAreSpelled }
{}

/// The order in which a module is loaded has exactly the modules that it reaches, each once, and
/// the module last.
pub fn order_is_reach()
    ensures order { OrderIsReached }
    ensures reach { ReachedIsOrdered }
    ensures once { OrderHasEachOnce }
    ensures within { OrderIsInLibrary }
    ensures closed { OrderIsClosed }
    ensures last { OrderEndsWithItself }
{}

/// Forwarders that come to an ordinal of a module a second time are a loop, and nothing else is.
pub fn loops_come_back()
    ensures loops { LoopComesBack }
    ensures returns { ComesBackLoops }
{}

/// A table has a fault exactly where a good part of it ends and a field follows that is cut off or not
/// allowed: name tables, import modules, groups of iterated data, entry bundles and fixup records. Of the
/// header's fields, and of the entries of the other tables, it is that of the first one that has a fault.
pub fn faults_follow_good_parts()
    ensures names { NameFaults }
    ensures imports { ImportFaults }
    ensures groups { GroupFaults }
    ensures bundles { BundleFaults }
    ensures records { RecordFaults }
    ensures entries { EntryFaults }
    ensures header { HeaderFaults }
{}

/// The bundles to which the ordinals of exports are joined are those of the exports.
pub fn bundles_are_joined()
    ensures { BundlesAreJoined }
{}
