//! The numbers of a layout and of fixups' values, one by one.
ghost use Rattle.std.specs.Prelude.{◌≡◌, ◌≤◌};
ghost use Rattle.link_model.specs.Parts as parts;
ghost use Rattle.link_model.specs.Flags as flags;

use lx_types::{
    OBJECT_ALIAS, OBJECT_BIG, OBJECT_CONFORMING, OBJECT_EXECUTABLE, OBJECT_IOPL, OBJECT_PRELOAD,
    OBJECT_READABLE, OBJECT_SHARED, OBJECT_WRITABLE,
};
use obj_types::{ALIGN_DOUBLEWORD, ALIGN_PAGE, ALIGN_PARAGRAPH, ALIGN_WORD, Attrs};

/// The bytes of an alignment of SEGDEF.
pub fn alignment_len(align: u8) -> u32
    ensures { result ≡ parts.alignment align }
{
    match align {
        ALIGN_WORD => 2,
        ALIGN_PARAGRAPH => 16,
        ALIGN_PAGE => 4096,
        ALIGN_DOUBLEWORD => 4,
        _ => 1,
    }
}

fn flag(set: bool, value: u32) -> u32
    requires { value ≤ 32768 }
    ensures same { result ≡ flags.flag set value }
    ensures small { result ≤ 32768 }
{
    if set { value } else { 0 }
}

/// The flags of an object whose segments have these attributes. ("32-bit Linear eXecutable Module Format": "Object
/// Table".)
pub fn object_flags(attrs: Attrs, wide: bool) -> u32
    ensures { result ≡ flags.flags_with attrs wide }
{
    flag(attrs.read, OBJECT_READABLE)
        + flag(attrs.write, OBJECT_WRITABLE)
        + flag(attrs.exec, OBJECT_EXECUTABLE)
        + flag(attrs.shared, OBJECT_SHARED)
        + flag(attrs.preload, OBJECT_PRELOAD)
        + flag(attrs.conforming, OBJECT_CONFORMING)
        + flag(attrs.iopl, OBJECT_IOPL)
        + if wide { OBJECT_BIG } else { OBJECT_ALIAS }
}
