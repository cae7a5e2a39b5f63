//! What the header of a module says of its file.

ghost use Rattle.std.specs.Prelude.{◌≡◌, ◌+◌, ◌<◌, ◌≤◌, ◌^◌, List, ℕ};
ghost use Rattle.lx_head.specs.Accepted.{doubleword};
ghost use Rattle.lx_model.specs.declared.header_fields.TheConstants.{PAGE_OFFSET_SHIFT};
ghost use Rattle.lx_types.specs.declared.object.TheConstants.{PAGE_SIZE};
ghost use Rattle.res_bind.specs.Numbers.{AreTablesOf, HasHeader, IsHeadOf};

use lx_head::{Head, read_head};

/// The numbers of a file's tables, and their places in the file.
#[derive(Clone, Copy)]
pub struct OldTables {
    pub header: u32,
    pub pages: u32,
    pub objects: u32,
    /// Offsets of pages count so many bytes.
    pub page_unit: u32,
    pub data_pages: u32,
    pub object_table: u64,
    pub page_table: u64,
    /// Of no meaning where the module has no fixup records.
    pub fixup_pages: u64,
    pub has_records: bool,
    /// How many entries the resource table has.
    pub resources: u32,
}

fn page_unit(shift: u32) -> u32
    requires { shift ≤ 12 }
    ensures is { result ≡ 2 ^ shift }
    ensures some { 1 ≤ result }
    ensures most { result ≤ PAGE_SIZE }
{
    2u32.pow(shift)
}

fn place_of(head: &Head, offset: u32) -> u64
    ensures place { result ≡ head.now.place + offset }
    ensures near { result < 2 ^ 33 }
{
    u64::from(head.place) + u64::from(offset)
}

fn tables_of(head: &Head) -> OldTables
    requires { doubleword head.now.fields PAGE_OFFSET_SHIFT ≤ 12 }
    ensures { (file : List ℕ) → IsHeadOf file head.now → AreTablesOf file result }
{
    OldTables {
        header: head.place,
        pages: head.page_count(),
        objects: head.object_count(),
        page_unit: page_unit(head.page_shift()),
        data_pages: head.data_pages(),
        object_table: place_of(head, head.object_table()),
        page_table: place_of(head, head.page_table()),
        fixup_pages: place_of(head, head.fixup_page_table()),
        has_records: head.fixup_page_table() != 0,
        resources: head.resource_count(),
    }
}

/// The numbers of a file's tables.
pub fn old_tables(file: &[u8]) -> OldTables
    requires { HasHeader file.now }
    ensures { AreTablesOf file.now result }
{
    match read_head(file) {
        Ok(head) => tables_of(&head),
        Err(_) => unreachable!(),
    }
}
