//! The types of the records of an object module. Of a pair of types the second, `_32`, has 32-bit fields
//! ("Relocatable Object Module Format", "Record Types").

ghost use Rattle.std.specs.Prelude.{◌≡◌};
ghost use Rattle.omf_frame.specs.RecordType.{is_record_type};

pub const THEADR: u8 = 0x80;

pub const LHEADR: u8 = 0x82;

pub const COMENT: u8 = 0x88;

pub const MODEND: u8 = 0x8A;

pub const MODEND_32: u8 = 0x8B;

pub const EXTDEF: u8 = 0x8C;

pub const PUBDEF: u8 = 0x90;

pub const PUBDEF_32: u8 = 0x91;

pub const LINNUM: u8 = 0x94;

pub const LINNUM_32: u8 = 0x95;

pub const LNAMES: u8 = 0x96;

pub const SEGDEF: u8 = 0x98;

pub const SEGDEF_32: u8 = 0x99;

pub const GRPDEF: u8 = 0x9A;

pub const FIXUPP: u8 = 0x9C;

pub const FIXUPP_32: u8 = 0x9D;

pub const LEDATA: u8 = 0xA0;

pub const LEDATA_32: u8 = 0xA1;

pub const LIDATA: u8 = 0xA2;

pub const LIDATA_32: u8 = 0xA3;

pub const COMDEF: u8 = 0xB0;

pub const LEXTDEF: u8 = 0xB4;

pub const LEXTDEF_32: u8 = 0xB5;

pub const LPUBDEF: u8 = 0xB6;

pub const LPUBDEF_32: u8 = 0xB7;

pub const COMDAT: u8 = 0xC2;

pub const COMDAT_32: u8 = 0xC3;

/// The header of a library, which is no record of an object module ("Microsoft LIB Library Format").
pub const LIBRARY_HEADER: u8 = 0xF0;

/// The end of a library's modules.
pub const LIBRARY_END: u8 = 0xF1;

/// Whether a record of an object module may have this type.
pub fn is_known(ty: u8) -> bool
    ensures { result ≡ is_record_type ty }
{
    matches!(
        ty,
        THEADR
            | LHEADR
            | COMENT
            | MODEND
            | MODEND_32
            | EXTDEF
            | PUBDEF
            | PUBDEF_32
            | LINNUM
            | LINNUM_32
            | LNAMES
            | SEGDEF
            | SEGDEF_32
            | GRPDEF
            | FIXUPP
            | FIXUPP_32
            | LEDATA
            | LEDATA_32
            | LIDATA
            | LIDATA_32
            | COMDEF
            | LEXTDEF
            | LEXTDEF_32
            | LPUBDEF
            | LPUBDEF_32
            | COMDAT
            | COMDAT_32
    )
}
