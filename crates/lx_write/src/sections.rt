//! The sections of a file.

ghost use Rattle.std.specs.Prelude.{◌≡◌, Some, None, length};
ghost use Rattle.lx_types.specs.Answers.{Answers};
ghost use Rattle.lx_exports.specs.Exports.{export_refusal};
ghost use Rattle.image_model.specs.Sections.{sections};
ghost use Rattle.lx_write.specs.Value.{CanBeWritten, image_value};
ghost use Rattle.lx_write.specs.Sections.{sections_value};

use crate::image::Image;
use crate::names::{import_table, name_offsets, proc_table};
use crate::objects::object_table;
use crate::pages::pages_of;
use crate::records::records_of;
use lx_exports::{EntryRefusal, write_tables};
use lx_head::write_pages;
use lx_types::{Bytes, Fail, Seq};
use std::alloc::Global;

/// The sections of a file, in the order in which they stand after the header.
pub struct Sections {
    /// The object table.
    pub objects: Bytes,
    /// The object page table.
    pub pages: Bytes,
    /// The resident name table.
    pub residents: Bytes,
    /// The entry table.
    pub entries: Bytes,
    /// The fixup page table.
    pub spans: Bytes,
    /// The fixup records.
    pub records: Bytes,
    /// The import module names.
    pub imports: Bytes,
    /// The import procedure names.
    pub procs: Bytes,
    /// The data of pages.
    pub contents: Bytes,
    /// The non-resident name table.
    pub others: Bytes,
    /// How many pages there are.
    pub page_count: usize,
}

// Dropped by a call, as lists are (`Seq`).
impl Drop for Sections {
    fn drop(self) {
        let Sections {
            objects,
            pages,
            residents,
            entries,
            spans,
            records,
            imports,
            procs,
            contents,
            others,
            page_count: _,
        } = self;
        drop(objects);
        drop(pages);
        drop(residents);
        drop(entries);
        drop(spans);
        drop(records);
        drop(imports);
        drop(procs);
        drop(contents);
        drop(others);
    }
}

/// The sections of an image. The refusal is that of its exports.
pub fn sections_of(alloc: Global, image: &Image) -> Result<Sections, Fail<EntryRefusal>>
    requires { CanBeWritten image.now }
    ensures { Answers result
        (λ s. (export_refusal image.now.exports ≡ None)
        × (sections_value s ≡ sections (image_value image.now))
        × (s.page_count ≡ length (image_value image.now).pages))
        (λ refusal. export_refusal image.now.exports ≡ Some refusal) }
{
    let tables = write_tables(alloc, &image.name, &image.about, image.exports.as_slice())?;
    let pages = pages_of(alloc, image.bytes.as_slice())?;
    let offsets = name_offsets(alloc, image.procs.as_slice())?;
    let records = records_of(alloc, image.fixes.as_slice(), offsets.as_slice())?;
    let heads = pages.heads.as_slice();
    let page_count = heads.len();
    Ok(Sections {
        objects: object_table(alloc, image.objects.as_slice())?,
        pages: write_pages(alloc, heads)?,
        residents: tables.resident,
        entries: tables.entries,
        spans: Seq::from_vec(records.spans),
        records: Seq::from_vec(records.records),
        imports: import_table(alloc, image.imports.as_slice())?,
        procs: proc_table(alloc, image.procs.as_slice())?,
        contents: Seq::from_vec(pages.contents),
        others: tables.others,
        page_count,
    })
}
