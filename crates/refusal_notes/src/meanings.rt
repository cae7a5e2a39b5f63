//! What each kind of refusal means whose fields are more than a place, and what to do.

use link_model::{EntryRefusal, FixRefusal, LayRefusal, LinkRefusal, SymRefusal};
use lx_model::LibraryRefusal;
use memory_model::MemoryRefusal;
use obj_types::OmfRefusal;
use omf_frame::record_type::{
    COMDAT, COMDAT_32, COMDEF, COMENT, FIXUPP, FIXUPP_32, GRPDEF, LIBRARY_HEADER, MODEND,
    MODEND_32, SEGDEF, SEGDEF_32,
};
use refusal_text::table;

/// Of an object file or a library, of which a record of this type is refused.
pub fn object_meaning(refusal: &OmfRefusal, record: Option<u8>) -> &'static str {
    table! { refusal;
        OmfRefusal::Short { .. } => "Short: something is cut off there: the file ends too early, or a length before it is wrong";
        OmfRefusal::BadChecksum { .. } => "BadChecksum: the record's bytes do not come to 0 with its checksum: the file is damaged";
        OmfRefusal::UnknownType { .. } => "UnknownType: lx reads no record of this type";
        OmfRefusal::BadIndex { .. } => "BadIndex: an index counts what was defined before it, from 1, and this one is not allowed";
        OmfRefusal::BadField { .. } => bad_field(record);
        OmfRefusal::DataRange { .. } => "DataRange: the data passes the end of its segment";
        OmfRefusal::Nested { .. } => "Nested: blocks of repeated data are nested more than 16 deep";
        OmfRefusal::NoThread { .. } => "NoThread: a fixup names a thread that no record before it sets";
        OmfRefusal::BadLocation { .. } => "BadLocation: a fixup has a kind of location that is not there";
        OmfRefusal::NoData { .. } => "NoData: a fixup stands outside the data of the record before it";
        OmfRefusal::FixOverlap { .. } => "FixOverlap: two fixups share a byte";
        OmfRefusal::DataOverFix { .. } => "DataOverFix: data stands over the place of an earlier fixup";
        OmfRefusal::TooMany { .. } => "TooMany: a module has at most 16,777,216 bytes of data and 1,048,576 fixups";
    }
}

// What a field of a record of this type may be.
fn bad_field(record: Option<u8>) -> &'static str {
    table! { record;
        Some(COMENT) => "BadField: in a comment: a default library's name over 255 bytes, or an empty name of an export or of an import's module";
        Some(SEGDEF | SEGDEF_32) => "BadField: in SEGDEF: alignment 6 or 7 (nasm writes 6 for align=512 and more), or combine type 1 or 3";
        Some(GRPDEF) => "BadField: in GRPDEF: each member begins with FFh";
        Some(FIXUPP | FIXUPP_32) => "BadField: in FIXUPP: a method that threads, frames or targets do not have";
        Some(MODEND | MODEND_32) => "BadField: in MODEND: a method that frames or targets do not have";
        Some(COMDEF) => "BadField: in COMDEF: a kind other than 61h and 62h, a length's first byte, or more than 16,777,216 bytes";
        Some(COMDAT | COMDAT_32) => "BadField: in COMDAT: iterated data, a selection over 3, an allocation over 4, an alignment over 5, segment 0, or a name out of turn: a continuation goes on with a name that began, and another record begins one";
        Some(LIBRARY_HEADER) => "BadField: in a library's header: its page size is a power of two from 16 to 32,768";
        _ => "BadField: a field has a value that the format does not have, or that lx does not take";
    }
}

/// What to do with an object file or a library of such a fault.
pub fn object_hint(refusal: &OmfRefusal) -> &'static str {
    match refusal {
        OmfRefusal::Short { .. } | OmfRefusal::BadChecksum { .. } => "make or fetch the file again",
        OmfRefusal::UnknownType { .. } => "have its maker leave the record out",
        OmfRefusal::TooMany { .. } => "make several modules of it",
        _ => "make the file again, or with another tool",
    }
}

/// Of the modules of a session together.
pub fn gathering_meaning(refusal: LibraryRefusal) -> &'static str {
    table! { refusal;
        LibraryRefusal::TooManyModules { .. } => "TooManyModules: there are at most 64 modules: leave some out";
        LibraryRefusal::NameTwice { .. } => "NameTwice: two modules have one name, case aside, and their places among the modules are told, from 0: leave one of the two out";
    }
}

/// Of a module that is not loaded.
pub fn load_meaning(refusal: MemoryRefusal) -> &'static str {
    table! { refusal;
        MemoryRefusal::NoModule => "NoModule: a library that is imported is none of the modules that are given: name its file too";
        MemoryRefusal::NoEntry => "NoEntry: an entry point that is imported is not there: link or name the library that has it";
        MemoryRefusal::ForwardLoop => "ForwardLoop: an entry point that is imported is forwarded back to itself";
        MemoryRefusal::Gate286 => "Gate286: an entry point that is imported is a call gate of the 80286, which lx does not load";
        MemoryRefusal::ArenaFull { .. } => "ArenaFull: an object has no place: its module's place among the modules is told, from 0, its number, and its size";
    }
}

/// Of a link.
pub fn link_meaning(refusal: &LinkRefusal) -> &'static str {
    table! { refusal;
        LinkRefusal::Sym(SymRefusal::Twice { .. }) => "Twice: a name is defined twice: leave one of the two out, or make its name local";
        LinkRefusal::Sym(SymRefusal::Missing { .. }) => "Missing: a name is defined nowhere: an object file, a library or IMPORTS has to define it";
        LinkRefusal::Sym(SymRefusal::ImportsMany { .. }) => "ImportsMany: more than 65,535 modules are imported: link several modules";
        LinkRefusal::Comdat(_) => "Clash: COMDATs of one name may not stand for one another: the first one's selection asks for one alone, for one length or for the same bytes: compile both from one source";
        LinkRefusal::Lay(LayRefusal::AbsoluteSeg { .. }) => "AbsoluteSeg: a segment is at a fixed address, which a module of OS/2 has none of: take the address away";
        LinkRefusal::Lay(LayRefusal::UseMixed { .. }) => "UseMixed: 16-bit and 32-bit segments would be one: nasm wants use32 at each segment";
        LinkRefusal::Lay(LayRefusal::GroupSplit { .. }) => "GroupSplit: the segments of a group cannot be one object: they have different flags, or stand in two groups: give them one class, or the group fewer";
        LinkRefusal::Lay(LayRefusal::TooLarge { .. }) => "TooLarge: objects end at 65,536 bytes (16-bit) or 16,777,216, and there are at most 1,024: link several modules";
        LinkRefusal::Fixing(FixRefusal::FarSelf { .. }) => "FarSelf: a field relative to its own place cannot reach its target: it has to be wider, or the two in one segment";
        LinkRefusal::Fixing(FixRefusal::FrameApart { .. }) => "FrameApart: a 16-bit field or a far pointer names a frame in another object than its target: the group FLAT has none";
        LinkRefusal::Fixing(FixRefusal::ConstSelector { .. }) => "ConstSelector: a constant has no selector: take its value alone";
        LinkRefusal::Fixing(FixRefusal::StartOutside { .. }) => "StartOutside: the start address is in no object: it has to be a place of a segment";
        LinkRefusal::Entry(EntryRefusal::Ordinal { .. }) => "Ordinal: an ordinal is given twice, or is none: they are 1 to 65,535, and each stands for one export";
        LinkRefusal::Entry(EntryRefusal::NameTwice { .. }) => "NameTwice: two exports have one name: leave one of the two out";
    }
}
