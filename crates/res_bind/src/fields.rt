//! The fields of the header that name the new tables.

ghost use Rattle.std.specs.Prelude.{◌≡◌, ◌+◌, ◌≤◌, length};
ghost use Rattle.res_model.specs.Bound.{with_field, with_fields};
ghost use Rattle.res_bind.specs.Numbers.{IsPlanOf};

use crate::plan::Plan;
use byteorder::{ByteOrder, LittleEndian};
use lx_model::header_fields::{
    FIXUP_PAGE_TABLE, MODULE_PAGES, OBJECT_COUNT, OBJECT_PAGE_TABLE, OBJECT_TABLE, RESOURCE_COUNT,
    RESOURCE_TABLE,
};

// Puts a number into a field of the header at a place.
fn set(file: &mut [u8], header: u32, offset: u8, value: u32)
    requires { header + offset + 4 ≤ length file.old }
    ensures { file.new ≡ with_field header offset value file.old }
{
    let at = header as usize + offset as usize;
    LittleEndian::write_u32(&mut file[at..], value);
}

/// Puts the numbers of pages, objects and resources and the places of the tables into the header of the file.
#[tactic(auto, unfolding(res_model::specs::Bound::with_fields))]
pub fn set_fields(file: &mut [u8], plan: &Plan<'_>)
    requires plan { IsPlanOf plan.now.file.now plan.now.tables plan.now.objects.now plan.now.items.now plan.now.layout }
    requires file { file.old ≡ plan.now.file.now }
    ensures { file.new ≡ with_fields plan.now.file.now plan.now.items.now }
{
    let tables = plan.tables;
    let layout = plan.layout;
    let header = tables.header;
    set(file, header, MODULE_PAGES, tables.pages + layout.pages);
    set(file, header, OBJECT_TABLE, layout.objects - header);
    set(file, header, OBJECT_COUNT, tables.objects + 1);
    set(file, header, OBJECT_PAGE_TABLE, layout.page_table - header);
    set(file, header, RESOURCE_TABLE, layout.resources - header);
    set(file, header, RESOURCE_COUNT, plan.items.len() as u32);
    if tables.has_records {
        set(file, header, FIXUP_PAGE_TABLE, layout.fixups - header);
    }
}
