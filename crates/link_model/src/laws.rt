//! Laws over the definitions, each the contract of a function that does nothing.
ghost use Rattle.link_model.specs.Appearance.{NamesAppear};
ghost use Rattle.link_model.specs.ChosenOnce.{ChosenOnce};
ghost use Rattle.link_model.specs.Fixing.{LiveApart, PatchesStand};
ghost use Rattle.link_model.specs.KeptLaws.{KeptIsWhole, AllIsKept, NoneClash};
ghost use Rattle.link_model.specs.Numbers.{LinkNumbers};
ghost use Rattle.link_model.specs.ImportTables.{NamesAtOffsets};
ghost use Rattle.link_model.specs.NothingDropped.{ChosenAreWhole, CommunalsStand, ExportsStay, ExternalsMean, FixupsStay, LiveFixupsMean, PiecesStay, RecordsStay, SegmentsStand, ValuesFit};
ghost use Rattle.link_model.specs.OneSegment.{OneSegmentLaw};

/// A link of one object module with one 32-bit code segment, whose fixups are 32-bit references to the
/// segment itself, is never refused, and its bytes at any base are those of one plain equation: the
/// base and the number that stands there where a fixup covers the byte, else the data.
pub fn one_segment_links_plainly()
    ensures { OneSegmentLaw }
{}

/// An input has one list of chosen modules at most, whatever way it was found.
pub fn modules_are_chosen_once()
    ensures { ChosenOnce }
{}

/// No two live fixups share a byte, so the order in which they are written does not matter.
pub fn live_fixups_are_apart()
    ensures { LiveApart }
{}

/// What is patched into a page is the same whatever the bases and imports are.
pub fn patches_stand_at_all_bases()
    ensures { PatchesStand }
{}

/// The numbers that the definitions name by words are those of the formats and of this project.
pub fn link_numbers_are_the_formats()
    ensures { LinkNumbers }
{}

/// A table by first appearance gets one more item last, unless its key is there. A key that is there keeps its
/// place and its first item, and none stands twice.
pub fn tables_grow_by_new_keys()
    ensures { NamesAppear }
{}

/// A value has as many bytes as its location.
pub fn values_fit_their_locations()
    ensures { ValuesFit }
{}

/// The chosen modules of a whole input are whole, whichever are chosen.
pub fn chosen_modules_are_whole()
    ensures { ChosenAreWhole }
{}

/// Where the names of a link are not refused, each external has a meaning.
pub fn externals_have_meanings()
    ensures { ExternalsMean }
{}

/// Each segment outside debug and each communal stands in an object, and all of it lies there.
pub fn segments_stand_in_objects()
    ensures segments { SegmentsStand }
    ensures communals { CommunalsStand }
{}

/// Where the names of a link of whole modules are not refused, all fixups of its modules are there, in order.
pub fn no_fixup_is_dropped()
    ensures { FixupsStay }
{}

/// Where the names of a link of whole modules are not refused, each live fixup that is not patched has a record on
/// each page on which it stands.
pub fn no_record_is_dropped()
    ensures { RecordsStay }
{}

/// All data of a link of whole modules is there, in order.
pub fn no_data_is_dropped()
    ensures { PiecesStay }
{}

/// Where no fixup is refused, the bytes of a live fixup's location are those of its value, at any bases.
pub fn live_fixups_give_their_values()
    ensures { LiveFixupsMean }
{}

/// Where the names of a link of whole modules are not refused, there is one export for each that is asked, in
/// order, by its name and with its ordinal.
pub fn no_export_is_dropped()
    ensures { ExportsStay }
{}

/// In the table of procedure names of a written module, each name stands at its offset.
pub fn names_stand_at_their_offsets()
    ensures { NamesAtOffsets }
{}

/// What is kept of a whole input is whole.
pub fn what_is_kept_is_whole()
    ensures { KeptIsWhole }
{}

/// Of an input without COMDATs all is kept, and none of it clashes.
pub fn without_comdats_all_is_kept()
    ensures kept { AllIsKept }
    ensures clash { NoneClash }
{}
