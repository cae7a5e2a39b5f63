//! Laws over the definitions, each the contract of a function that does nothing.

ghost use Rattle.layer_laws.specs.EntryLaws.{EntriesAreOut};
ghost use Rattle.layer_laws.specs.ImportLaws.{ImportsBind, PairsReach};
ghost use Rattle.layer_laws.specs.LinkedFiles.{LinkedFilesMeanTheirLinks};
ghost use Rattle.layer_laws.specs.LinkedImages.{LinkedFilesRead, LinkedImagesFit};
ghost use Rattle.layer_laws.specs.LoadedBytes.{LinkedBytesLoaded, PlainBytesLoaded};

/// The image of every input that links fits the fields and the limits of the format ("32-bit Linear eXecutable
/// Module Format": "LX Header" to "Non-Resident Name Table"), where its file is shorter than 2^32 bytes.
pub fn linked_images_fit()
    ensures { LinkedImagesFit }
{}

/// The file of every input that links, where it is shorter than 2^32 bytes, has no fault and is read as the parts of the
/// link's image, with the link's name, flags, start, objects, import modules and entries.
pub fn linked_files_are_read()
    ensures { LinkedFilesRead }
{}

/// Wherever a module that was linked is loaded, its bytes are those that the link means at each place that no fixup left to
/// the loader covers: data of plain, iterated and zero-filled pages, and what the linker patched ("Object Page Table",
/// "Iterated Data Pages").
pub fn plain_bytes_are_loaded()
    ensures { PlainBytesLoaded }
{}

/// Wherever a module that was linked is loaded, in a library in which it is fit, at bases that are multiples of 65,536 with
/// each object's end at most 20000000h, each of its bytes, fixups applied, is the one that the link means there ("Fixup
/// Record Table").
pub fn linked_bytes_are_loaded()
    ensures { LinkedBytesLoaded }
{}

/// What `link_core::link` answers for an input, by its clauses `linked` and `short`, has no fault, is read as the link, and is
/// loaded with the bytes that the link means.
pub fn linked_files_mean_their_links()
    ensures { LinkedFilesMeanTheirLinks }
{}

/// The entry points of a module that was linked are the exports of the link: asked by its ordinal and by its name, each
/// export leads to its place, or where the pair that it forwards leads in the library of the pair's module name. No other
/// ordinal and no other name has an entry ("32-bit Linear eXecutable Module Format": "Entry Table",
/// "Resident or Non-resident Name Table Entry").
pub fn entries_are_exports()
    ensures { EntriesAreOut }
{}

/// In an input with the import library of a definition file, an external of the name of one of its EXPORTS, which nothing
/// else in the input defines, means the pair of an export of that name: the module's name, with the export's ordinal where
/// the definition file gives one, otherwise with its name ("IMPLIB" in the Toolkit's tools reference).
pub fn imports_are_bound()
    ensures { ImportsBind }
{}

/// In every library that holds the module that is linked with a definition file of kind LIBRARY, the pair of an export leads
/// where the module's export of that name leads: to its place, or through its forwarder ("32-bit Linear eXecutable
/// Module Format": "Entry Table").
pub fn pairs_reach_exports()
    ensures { PairsReach }
{}
