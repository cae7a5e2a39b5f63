//! The one file of an image.

ghost use Rattle.std.specs.Prelude.{◌≡◌, ◌++◌, ◌<◌, ◌^◌, None, Some, IfOk, length};
ghost use Rattle.lx_types.specs.Answers.{Answers};
ghost use Rattle.lx_model.specs.TableSpelling.{header_spelling};
ghost use Rattle.lx_exports.specs.Exports.{export_refusal};
ghost use Rattle.image_model.specs.File.{file_of, sections_bytes};
ghost use Rattle.lx_write.specs.Value.{CanBeWritten, image_value};
ghost use Rattle.image_model.specs.ReadBack.{ImageFits, parts_of_image};
ghost use Rattle.image_model.specs.Sections.{sections};
ghost use Rattle.lx_model.specs.Module.{Lx};
ghost use Rattle.lx_write.specs.Sections.{sections_value};

use crate::header::{fields_of, places_of};
use crate::image::Image;
use crate::sections::{Sections, sections_of};
use lx_exports::EntryRefusal;
use lx_head::header_bytes;
use lx_types::{Fail, NoMemory};
use std::alloc::Global;

// The header with these doublewords, with room for a file of so many bytes.
fn header_in(alloc: Global, fields: &[u32; 43], room: u32) -> Result<Vec<u8>, NoMemory>
    ensures { IfOk result (λ file. file.items ≡ header_spelling fields.now) }
{
    let mut file = Vec::with_capacity(alloc, room as usize)?;
    file.extend_from_slice(&header_bytes(fields))?;
    Ok(file)
}

// The header and, after it, the sections; `len` bytes in all.
fn join(alloc: Global, fields: &[u32; 43], s: &Sections, len: u32) -> Result<Vec<u8>, NoMemory>
    ensures { IfOk result (λ file. file.items ≡ header_spelling fields.now ++ sections_bytes (sections_value s.now)) }
{
    let mut file = header_in(alloc, fields, len)?;
    file.extend_from_slice(s.objects.as_slice())?;
    file.extend_from_slice(s.pages.as_slice())?;
    file.extend_from_slice(s.residents.as_slice())?;
    file.extend_from_slice(s.entries.as_slice())?;
    file.extend_from_slice(s.spans.as_slice())?;
    file.extend_from_slice(s.records.as_slice())?;
    file.extend_from_slice(s.imports.as_slice())?;
    file.extend_from_slice(s.procs.as_slice())?;
    file.extend_from_slice(s.contents.as_slice())?;
    file.extend_from_slice(s.others.as_slice())?;
    Ok(file)
}

// The file of sections of an image.
fn file_with(alloc: Global, image: &Image, s: &Sections) -> Result<Vec<u8>, NoMemory>
    requires pages { s.now.page_count ≡ length (image_value image.now).pages }
    requires sections { sections_value s.now ≡ sections (image_value image.now) }
    ensures same { IfOk result (λ file. file.items ≡ file_of (image_value image.now)) }
    ensures short { IfOk result (λ file. length file.items < 2 ^ 32) }
{
    let Some(places) = places_of(s) else {
        return Err(NoMemory);
    };
    let Some(fields) = fields_of(image, s, &places) else {
        return Err(NoMemory);
    };
    join(alloc, &fields, s, places.end)
}

/// The one file of an image: the header and its sections, one after the other without gaps.
///
/// It asks that each object has as many bytes as its size and one list of fixups for each page, that
/// the fixups of a page can be its records, that what targets, the start and the stack name is
/// there, that the module and its exports have names, that no export is a call gate, that parameter
/// words are at most 31, that object and import numbers of exports are from 1 to 65,535, and that an
/// export whose offset is over 65,535 is wide.
///
/// `Ordinal` where an export asks for the ordinal 0 or for one that an earlier export asks for, or
/// where the least free ordinal passes 65,535; else `NameTwice` where an export has the name of an
/// earlier one. Where the file would have 2^32 bytes or more no memory is found.
pub fn write_module(alloc: Global, image: &Image) -> Result<Vec<u8>, Fail<EntryRefusal>>
    requires { CanBeWritten image.now }
    ensures written { Answers result
        (λ file. (export_refusal image.now.exports ≡ None) × (file.items ≡ file_of (image_value image.now)))
        (λ refusal. export_refusal image.now.exports ≡ Some refusal) }
    ensures short { IfOk result (λ file. length file.items < 2 ^ 32) }
    // It is read again as its module, where the numbers and the tables of the module fit the format.
    ensures read { IfOk result (λ file. ImageFits (image_value image.now)
        → Lx file.items (parts_of_image (image_value image.now))) }
{
    let sections = sections_of(alloc, image)?;
    Ok(file_with(alloc, image, &sections)?)
}
