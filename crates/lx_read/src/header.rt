//! The header: the numbers of a file's tables, and where they stand ("LX Header").

ghost use Rattle.std.specs.Prelude.{◌≡◌, ◌+◌, ◌<◌, ◌^◌, ℕ, List, length};
ghost use Rattle.lx_model.specs.Header.{start_of, start_fault};
ghost use Rattle.lx_read.specs.Headers.{IsNear, IsHeadOf, IsHeaderOf, ReadsHeader};
ghost use Rattle.lx_types.specs.Answers.{as_is};
ghost use Rattle.lx_model.specs.Judging.{Judges};

use crate::fields::fault;
use lx_head::{Head, read_head};
use lx_model::header_fields::EIP_OBJECT;
use lx_types::{LxKind, LxRefusal};

/// What the header says of a file's tables. Places are places in the file.
#[derive(Clone, Copy)]
pub struct Header {
    pub place: u32,
    pub module_flags: u32,
    /// How many pages the object page table has.
    pub pages: u32,
    pub objects: u32,
    pub imports: u32,
    /// The object and the offset at which the module starts; the object is 0 where it starts nowhere.
    pub start: (u32, u32),
    /// By how many bits the offsets of pages are shifted.
    pub page_shift: u32,
    pub object_table: u64,
    pub page_table: u64,
    pub iterated_pages: u32,
    pub data_pages: u32,
    pub resident_names: u64,
    pub other_names: u32,
    /// How many bytes the non-resident name table may take.
    pub other_names_length: u32,
    pub import_modules: u64,
    pub import_procedures: u64,
    pub entry_table: u64,
    /// There is none in a module without fixup records.
    pub fixup_pages: Option<u64>,
    pub fixup_records: u64,
}

// The place of a table that stands at an offset from the header.
fn place_of(head: &Head, offset: u32) -> u64
    ensures place { result ≡ head.now.place + offset }
    ensures near { IsNear result }
{
    u64::from(head.place) + u64::from(offset)
}

// What a header says that was read from a file.
fn header_of(head: &Head) -> Header
    ensures { (file : List ℕ) → IsHeadOf file head.now → IsHeaderOf file result }
{
    let fixup_pages = head.fixup_page_table();
    Header {
        place: head.place,
        module_flags: head.module_flags(),
        pages: head.page_count(),
        objects: head.object_count(),
        imports: head.import_count(),
        start: (head.start_object(), head.start_offset()),
        page_shift: head.page_shift(),
        object_table: place_of(head, head.object_table()),
        page_table: place_of(head, head.page_table()),
        iterated_pages: head.iterated_pages(),
        data_pages: head.data_pages(),
        resident_names: place_of(head, head.resident_names()),
        other_names: head.other_names(),
        other_names_length: head.other_names_length(),
        import_modules: place_of(head, head.import_modules()),
        import_procedures: place_of(head, head.import_procedures()),
        entry_table: place_of(head, head.entry_table()),
        fixup_pages: if fixup_pages == 0 {
            None
        } else {
            Some(place_of(head, fixup_pages))
        },
        fixup_records: place_of(head, head.fixup_records()),
    }
}

/// The header of a file. A refusal is the first fault of its place and of its fields, by offset;
/// the object of the start is judged later.
pub fn read_header(file: &[u8]) -> Result<Header, LxRefusal>
    requires { length file.now < 2 ^ 32 }
    ensures { ReadsHeader result file.now }
{
    let head = read_head(file)?;
    Ok(header_of(&head))
}

/// Where the module starts. Its object has to be one of the module's, or 0 where there is no start:
/// otherwise it is `Field` at the header's field 18h.
pub fn read_start(file: &[u8], header: &Header) -> Result<Option<(u32, u32)>, LxRefusal>
    requires { IsHeaderOf file.now header.now }
    ensures { Judges as_is result (start_of file.now) (start_fault file.now) }
{
    let (object, _) = header.start;
    if object > header.objects {
        return Err(fault(
            LxKind::Field,
            u64::from(header.place) + u64::from(EIP_OBJECT),
        ));
    }
    Ok(if object == 0 {
        None
    } else {
        Some(header.start)
    })
}
