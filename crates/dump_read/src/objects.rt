//! The lines of objects and pages.

ghost use Rattle.std.specs.Prelude.{◌≡◌, ◌<◌};
ghost use Rattle.dump_read.specs.Taken.{Reads, shut};
ghost use Rattle.dump_read.specs.Parts.{HasHeadData, IsDataOf, IsObjectHead, data_rest, data_text, object_head_line, page_head_line};

use crate::reader::{BLANK, END, Reader};
use lx_types::{PageHead, PageKind};

// What stands after the first word of where a page's data stands, which is the k-th of those that there are.
fn data_after(reader: &mut Reader<'_>, k: usize) -> PageHead
    requires { k < 4 }
    ensures { Reads data_rest (IsDataOf k) shut result reader.old reader.new }
{
    match k {
        0 => PageHead {
            kind: PageKind::Plain,
            at: reader.number(BLANK),
            len: reader.number(END),
        },
        1 => PageHead {
            kind: PageKind::Iterated,
            at: reader.number(BLANK),
            len: reader.number(END),
        },
        2 => PageHead {
            kind: PageKind::Invalid,
            at: 0,
            len: 0,
        },
        _ => PageHead {
            kind: PageKind::Zero,
            at: 0,
            len: 0,
        },
    }
}

// What the data of a page is, and where it stands.
fn data(reader: &mut Reader<'_>) -> PageHead
    ensures { Reads data_text HasHeadData shut result reader.old reader.new }
{
    let words: [&[u8]; 4] = [b"plain ", b"iterated ", b"invalid\n", b"zero\n"];
    let k = reader.one_of(&words);
    data_after(reader, k)
}

/// The line of page `page` of object `object`.
pub(crate) fn page_head(reader: &mut Reader<'_>, object: u64, page: u64) -> PageHead
    ensures { Reads (page_head_line object page) HasHeadData shut result reader.old reader.new }
{
    reader.word(b"page ");
    reader.count(object, BLANK);
    reader.count(page, BLANK);
    data(reader)
}

/// What an object's line says.
#[derive(Clone, Copy)]
pub(crate) struct ObjectHead {
    pub size: u32,
    pub base: u32,
    pub flags: u32,
    /// How many pages it has.
    pub count: u32,
}

/// The line of object `number`.
pub(crate) fn object_head(reader: &mut Reader<'_>, number: u64) -> ObjectHead
    ensures { Reads (object_head_line number) IsObjectHead shut result reader.old reader.new }
{
    reader.word(b"object ");
    reader.count(number, BLANK);
    reader.word(b"size ");
    let size = reader.number(BLANK);
    reader.word(b"base ");
    let base = reader.flags(BLANK);
    reader.word(b"flags ");
    let flags = reader.flags(BLANK);
    reader.word(b"pages ");
    let count = reader.number(END);
    ObjectHead {
        size,
        base,
        flags,
        count,
    }
}
