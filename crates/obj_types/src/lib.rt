//! What a link reads: object modules, the unfinished module of a reader, and definition files.
//!
//! The words are those of "Relocatable Object Module Format" (OMF). Indices count from 1 in every
//! list, as in the format. Contracts see each list field as a list, and a name as the list of its
//! bytes.
#![tactic(auto)]

mod definition;
mod input;
mod laws;
mod limits;
mod location;
mod object;
mod parts;
mod refusal;
mod symbol;

pub use definition::{Attrs, DefFile, ModKind, SegAttrs, SegRules};
pub use input::{LinkInput, ObjModules};
pub use laws::{comdat_numbers, limit_numbers, location_numbers, segment_numbers};
pub use limits::{MAX_BASE, MAX_DATA, MAX_DEPTH, MAX_FIXES, MIN_BASE};
pub use location::{
    LOCATION_BYTE, LOCATION_FAR_16, LOCATION_FAR_32, LOCATION_LOADER_16, LOCATION_LOADER_32,
    LOCATION_OFFSET_16, LOCATION_OFFSET_32, LOCATION_SELECTOR, has_selector, location_len,
};
pub use object::{
    ALIGN_ABSOLUTE, ALIGN_BYTE, ALIGN_DOUBLEWORD, ALIGN_PAGE, ALIGN_PARAGRAPH, ALIGN_WORD,
    COMBINE_COMMON, COMBINE_PRIVATE, COMBINE_PUBLIC, COMBINE_STACK, Comdat, Comdats, FixAt, Fixes,
    Frame, Goal, Group, Groups, Members, ObjModule, Piece, Pieces, Seg, Segs, Selection, StartAt,
};
pub use parts::{BegunComdat, BegunComdats, COMDAT_BASE, LastData, ObjParts, Threads};
pub use refusal::OmfRefusal;
pub use symbol::{Common, Exp, Exports, Ext, Exts, Imp, Imports, Pub, PubPlace, Pubs};
