//! The entries of the object table and of the object page table ("Object Table", "Object Page
//! Table").

ghost use Rattle.std.specs.Prelude.{◌≡◌, ◌<◌, ◌^◌, All, IfOk};
ghost use Rattle.lx_model.specs.Tables.{object_entry};
ghost use Rattle.lx_model.specs.TableSpelling.{object_spelling, objects_spelling, page_fields, page_spelling, pages_spelling};

use byteorder::{ByteOrder, LittleEndian};
use lx_fields::{doubleword_at, word_at};
use lx_model::{OBJECT_ENTRY_LEN, PAGE_ENTRY_LEN};
use lx_types::{Bytes, NoMemory, ObjHead, PageHead, PageKind, Seq};
use std::alloc::Global;

/// The object that the entry at a place of a file describes. Its last doubleword is reserved. What is past the
/// file's end counts as zeros.
pub fn object_at(file: &[u8], at: usize) -> ObjHead
    requires { at < 2 ^ 62 }
    ensures { result ≡ object_entry file.now at }
{
    ObjHead {
        size: doubleword_at(file, at),
        base: doubleword_at(file, at + 4),
        flags: doubleword_at(file, at + 8),
        first: doubleword_at(file, at + 12),
        count: doubleword_at(file, at + 16),
    }
}

/// The object that an entry of the object table describes.
pub fn object_head(bytes: &[u8; OBJECT_ENTRY_LEN]) -> ObjHead
    ensures { result ≡ object_entry bytes.now 0 }
{
    object_at(bytes, 0)
}

/// The page that the entry at a place of a file describes: its own `at` is the offset in the table, which is not
/// shifted. `None` comes exactly where the entry's flags are over 3, so that they name no kind of page. What is
/// past the file's end counts as zeros.
pub fn page_at(file: &[u8], at: usize) -> Option<PageHead>
    requires { at < 2 ^ 62 }
    ensures { result ≡ page_fields file.now at }
{
    let kind = match word_at(file, at + 6) {
        0 => PageKind::Plain,
        1 => PageKind::Iterated,
        2 => PageKind::Invalid,
        3 => PageKind::Zero,
        _ => return None,
    };
    Some(PageHead {
        kind,
        at: doubleword_at(file, at),
        len: u32::from(word_at(file, at + 4)),
    })
}

/// The page that an entry of the object page table describes, as `page_at` does.
pub fn page_entry(bytes: &[u8; PAGE_ENTRY_LEN]) -> Option<PageHead>
    ensures { result ≡ page_fields bytes.now 0 }
{
    page_at(bytes, 0)
}

// An entry of the object table; its last doubleword is reserved.
fn object_bytes(head: &ObjHead) -> [u8; OBJECT_ENTRY_LEN]
    ensures { result ≡ object_spelling head.now }
{
    let mut bytes = [0; OBJECT_ENTRY_LEN];
    let numbers = [head.size, head.base, head.flags, head.first, head.count, 0];
    LittleEndian::write_u32_into(&numbers, &mut bytes);
    bytes
}

/// The entries of an object table, one after the other.
pub fn write_objects(alloc: Global, heads: &[ObjHead]) -> Result<Bytes, NoMemory>
    ensures { IfOk result (λ bytes. bytes ≡ objects_spelling heads.now) }
{
    let mut out = Vec::new(alloc);
    for head in heads {
        out.extend_from_slice(&object_bytes(head))?;
    }
    Ok(Seq::from_vec(out))
}

// An entry of the object page table.
fn page_bytes(page: &PageHead) -> [u8; PAGE_ENTRY_LEN]
    requires { page.now.len < 2 ^ 16 }
    ensures { result ≡ page_spelling page.now }
{
    let flags = match page.kind {
        PageKind::Plain => 0,
        PageKind::Iterated => 1,
        PageKind::Invalid => 2,
        PageKind::Zero => 3,
    };
    let mut bytes = [0; PAGE_ENTRY_LEN];
    LittleEndian::write_u32(&mut bytes[..4], page.at);
    LittleEndian::write_u16(&mut bytes[4..6], page.len as u16);
    LittleEndian::write_u16(&mut bytes[6..], flags);
    bytes
}

/// The entries of an object page table, one after the other; `at` is the table's own offset.
pub fn write_pages(alloc: Global, pages: &[PageHead]) -> Result<Bytes, NoMemory>
    requires { All (λ p. p.len < 2 ^ 16) pages.now }
    ensures { IfOk result (λ bytes. bytes ≡ pages_spelling pages.now) }
{
    let mut out = Vec::new(alloc);
    for page in pages {
        out.extend_from_slice(&page_bytes(page))?;
    }
    Ok(Seq::from_vec(out))
}
