//! What the definition of a record says of all byte strings.

ghost use Rattle.std.specs.Prelude.{◌≡◌, ℕ, List};
ghost use Rattle.lx_bytes.specs.LittleEndian.{AreBytes};
ghost use Rattle.omf_frame.specs.Frame.{BeginsWhole};
ghost use Rattle.omf_frame.specs.Refusal.{IsCutOff};

use crate::comment_class::{DEFAULT_LIBRARY, EXPDEF, EXTENSION, IMPDEF};
use crate::record_type::{
    COMDAT, COMDAT_32, COMDEF, COMENT, EXTDEF, FIXUPP, FIXUPP_32, GRPDEF, LEDATA, LEDATA_32,
    LEXTDEF, LEXTDEF_32, LHEADR, LIBRARY_END, LIBRARY_HEADER, LIDATA, LIDATA_32, LINNUM, LINNUM_32,
    LNAMES, LPUBDEF, LPUBDEF_32, MODEND, MODEND_32, PUBDEF, PUBDEF_32, SEGDEF, SEGDEF_32, THEADR,
};

/// Bytes begin with one record at most: no record's bytes are the front of another's.
pub fn one_record()
    ensures { (bytes : List ℕ) (ty other_ty : ℕ) (body other_body : List ℕ)
        → (checksum other : ℕ) (rest other_rest : List ℕ)
        → BeginsWhole bytes ty body checksum rest
        → BeginsWhole bytes other_ty other_body other other_rest
        → (ty ≡ other_ty) × (body ≡ other_body) × (checksum ≡ other) × (rest ≡ other_rest) }
{}

/// A law: the number of each record type ("Record Types").
pub fn type_numbers()
    ensures theadr { THEADR ≡ 0x80 }
    ensures lheadr { LHEADR ≡ 0x82 }
    ensures coment { COMENT ≡ 0x88 }
    ensures modend { MODEND ≡ 0x8A }
    ensures modend_32 { MODEND_32 ≡ 0x8B }
    ensures extdef { EXTDEF ≡ 0x8C }
    ensures pubdef { PUBDEF ≡ 0x90 }
    ensures pubdef_32 { PUBDEF_32 ≡ 0x91 }
    ensures linnum { LINNUM ≡ 0x94 }
    ensures linnum_32 { LINNUM_32 ≡ 0x95 }
    ensures lnames { LNAMES ≡ 0x96 }
    ensures segdef { SEGDEF ≡ 0x98 }
    ensures segdef_32 { SEGDEF_32 ≡ 0x99 }
    ensures grpdef { GRPDEF ≡ 0x9A }
    ensures fixupp { FIXUPP ≡ 0x9C }
    ensures fixupp_32 { FIXUPP_32 ≡ 0x9D }
    ensures ledata { LEDATA ≡ 0xA0 }
    ensures ledata_32 { LEDATA_32 ≡ 0xA1 }
    ensures lidata { LIDATA ≡ 0xA2 }
    ensures lidata_32 { LIDATA_32 ≡ 0xA3 }
    ensures comdef { COMDEF ≡ 0xB0 }
    ensures lextdef { LEXTDEF ≡ 0xB4 }
    ensures lextdef_32 { LEXTDEF_32 ≡ 0xB5 }
    ensures lpubdef { LPUBDEF ≡ 0xB6 }
    ensures lpubdef_32 { LPUBDEF_32 ≡ 0xB7 }
    ensures comdat { COMDAT ≡ 0xC2 }
    ensures comdat_32 { COMDAT_32 ≡ 0xC3 }
    ensures library_header { LIBRARY_HEADER ≡ 0xF0 }
    ensures library_end { LIBRARY_END ≡ 0xF1 }
{}

/// A law: the classes of comments, and the subtypes of the class of extensions ("88h COMENT").
pub fn comment_numbers()
    ensures default_library { DEFAULT_LIBRARY ≡ 0x9F }
    ensures extension { EXTENSION ≡ 0xA0 }
    ensures impdef { IMPDEF ≡ 1 }
    ensures expdef { EXPDEF ≡ 2 }
{}

/// A record is cut off exactly where no whole record begins.
pub fn cut_off_or_whole()
    ensures not_both { (bytes : List ℕ) (ty : ℕ) (body : List ℕ) (checksum : ℕ) (rest : List ℕ) → IsCutOff bytes → BeginsWhole bytes ty body checksum rest → ⊥ }
    ensures either { (bytes : List ℕ) → AreBytes bytes → ((ty checksum : ℕ) (body rest : List ℕ) → BeginsWhole bytes ty body checksum rest → ⊥) →
        IsCutOff bytes }
{}
