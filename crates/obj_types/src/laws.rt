//! The numbers of the format and the limits of object modules, written out. The definitions name the limits as the
//! code does, so this law alone refuses a wrong one.
//!
//! "9Ch FIXUPP" (location types), "98h SEGDEF" (alignment, combine type).

ghost use Rattle.std.specs.Prelude.{◌≡◌};

use crate::limits::{MAX_BASE, MAX_DATA, MAX_DEPTH, MAX_FIXES, MIN_BASE};
use crate::location::{
    LOCATION_BYTE, LOCATION_FAR_16, LOCATION_FAR_32, LOCATION_LOADER_16, LOCATION_LOADER_32,
    LOCATION_OFFSET_16, LOCATION_OFFSET_32, LOCATION_SELECTOR,
};
use crate::object::{
    ALIGN_ABSOLUTE, ALIGN_BYTE, ALIGN_DOUBLEWORD, ALIGN_PAGE, ALIGN_PARAGRAPH, ALIGN_WORD,
    COMBINE_COMMON, COMBINE_PRIVATE, COMBINE_PUBLIC, COMBINE_STACK,
};
use crate::parts::COMDAT_BASE;

/// A law: the limits in bytes of data, in fixups and in nested blocks, and the bounds of bases.
pub fn limit_numbers()
    ensures data { MAX_DATA ≡ 16777216 }
    ensures fixups { MAX_FIXES ≡ 1048576 }
    ensures depth { MAX_DEPTH ≡ 16 }
    ensures least_base { MIN_BASE ≡ 0x10000 }
    ensures greatest_base { MAX_BASE ≡ 0x1FFF0000 }
{}

/// A law: the kinds of location.
pub fn location_numbers()
    ensures byte { LOCATION_BYTE ≡ 0 }
    ensures offset_16 { LOCATION_OFFSET_16 ≡ 1 }
    ensures selector { LOCATION_SELECTOR ≡ 2 }
    ensures far_16 { LOCATION_FAR_16 ≡ 3 }
    ensures loader_16 { LOCATION_LOADER_16 ≡ 5 }
    ensures offset_32 { LOCATION_OFFSET_32 ≡ 9 }
    ensures far_32 { LOCATION_FAR_32 ≡ 11 }
    ensures loader_32 { LOCATION_LOADER_32 ≡ 13 }
{}

/// A law: the number from which those of an unfinished module's COMDATs count.
pub fn comdat_numbers()
    ensures base { COMDAT_BASE ≡ 65536 }
{}

/// A law: the alignments of segments, and the ways to combine them.
pub fn segment_numbers()
    ensures absolute { ALIGN_ABSOLUTE ≡ 0 }
    ensures byte { ALIGN_BYTE ≡ 1 }
    ensures word { ALIGN_WORD ≡ 2 }
    ensures paragraph { ALIGN_PARAGRAPH ≡ 3 }
    ensures page { ALIGN_PAGE ≡ 4 }
    ensures doubleword { ALIGN_DOUBLEWORD ≡ 5 }
    ensures private { COMBINE_PRIVATE ≡ 0 }
    ensures public { COMBINE_PUBLIC ≡ 2 }
    ensures stack { COMBINE_STACK ≡ 5 }
    ensures common { COMBINE_COMMON ≡ 6 }
{}
