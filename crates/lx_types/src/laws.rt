//! The numbers of the format, written out. The definitions name them as the code does, so this law alone
//! refuses a wrong one.
//!
//! "32-bit Linear eXecutable Module Format": "LX Header" (module flags, page size), "Object Table" (flags),
//! "Fixup Record Table" (16:16 pointers).

ghost use Rattle.std.specs.Prelude.{◌≡◌};

use crate::limits::{
    BASE_UNIT, MAX_FILE, MAX_LOADS, MAX_MODULES, MAX_OBJECTS, MAX_PAGES, MAX_PROCESSES, PAGE_LEN,
    PRIVATE_FROM, SHARED_END, SHARED_FROM,
};
use crate::object::{
    OBJECT_ALIAS, OBJECT_BIG, OBJECT_CONFORMING, OBJECT_EXECUTABLE, OBJECT_IOPL, OBJECT_PRELOAD,
    OBJECT_READABLE, OBJECT_SHARED, OBJECT_WRITABLE, PAGE_SIZE,
};
use crate::parts::{MODULE_INIT_EACH, MODULE_KIND, MODULE_LIBRARY, MODULE_TERM_EACH};
use crate::selectors::{FLAT_CODE, FLAT_DATA};

/// A law: each flag of objects and of modules, the size of a page, and the flat selectors.
pub fn format_numbers()
    ensures readable { OBJECT_READABLE ≡ 0x0001 }
    ensures writable { OBJECT_WRITABLE ≡ 0x0002 }
    ensures executable { OBJECT_EXECUTABLE ≡ 0x0004 }
    ensures shared { OBJECT_SHARED ≡ 0x0020 }
    ensures preload { OBJECT_PRELOAD ≡ 0x0040 }
    ensures alias { OBJECT_ALIAS ≡ 0x1000 }
    ensures big { OBJECT_BIG ≡ 0x2000 }
    ensures conforming { OBJECT_CONFORMING ≡ 0x4000 }
    ensures iopl { OBJECT_IOPL ≡ 0x8000 }
    ensures page_size { PAGE_SIZE ≡ 4096 }

    ensures init_each { MODULE_INIT_EACH ≡ 0x0000_0004 }
    ensures library { MODULE_LIBRARY ≡ 0x0000_8000 }
    ensures kind { MODULE_KIND ≡ 0x0003_8000 }
    ensures term_each { MODULE_TERM_EACH ≡ 0x4000_0000 }

    ensures flat_code { FLAT_CODE ≡ 0x5B }
    ensures flat_data { FLAT_DATA ≡ 0x53 }
{}

/// A law: each number that bounds a file, a module, a session or where objects stand.
pub fn limits_are()
    ensures page { PAGE_LEN ≡ PAGE_SIZE }
    ensures file { MAX_FILE ≡ 16777216 }
    ensures objects { MAX_OBJECTS ≡ 1024 }
    ensures pages { MAX_PAGES ≡ 65536 }
    ensures modules { MAX_MODULES ≡ 64 }
    ensures processes { MAX_PROCESSES ≡ 16 }
    ensures loads { MAX_LOADS ≡ 65535 }
    ensures base_unit { BASE_UNIT ≡ 65536 }
    ensures private_from { PRIVATE_FROM ≡ 0x0001_0000 }
    ensures shared_from { SHARED_FROM ≡ 0x1000_0000 }
    ensures shared_end { SHARED_END ≡ 0x2000_0000 }
{}
