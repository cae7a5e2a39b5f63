//! Whether an image can be written.

ghost use Rattle.std.specs.Prelude.{◌≡◌, ◌↔◌, Some, All, IsTrue, IfSome, length, map};
ghost use Rattle.lx_types.specs.Answers.{Answers};
ghost use Rattle.lx_types.specs.Sound.{IsNumberOf};
ghost use Rattle.link_model.specs.Records.{page_count};
ghost use Rattle.lx_exports.specs.Exports.{export_refusal};
ghost use Rattle.writable_images.specs.Named.{AreNamed, NamesOne, PageFits, PartsFit};
ghost use Rattle.lx_write.specs.Value.{CanBeWritten};

use crate::exports::{exports_fit, ordinal_marks};
use crate::records::may_be_written;
use link_model::LaidObject;
use lx_exports::EntryRefusal;
use lx_types::{Bytes, Fail, Fix, FixTarget, Seq};
use lx_write::{Image, page_count};
use std::alloc::Global;

/// What targets may name: so many objects, import modules and import procedures, and the ordinals
/// that have a mark.
#[derive(Drop)]
pub struct Named {
    pub objects: usize,
    pub imports: usize,
    pub procs: usize,
    pub ordinals: Vec<bool>,
}

// What the targets of an image may name.
fn named_by(alloc: Global, image: &Image) -> Result<Named, Fail<EntryRefusal>>
    ensures { Answers result
        (λ named. AreNamed image.now named)
        (λ refusal. export_refusal image.now.exports ≡ Some refusal) }
{
    Ok(Named {
        objects: image.objects.as_slice().len(),
        imports: image.imports.as_slice().len(),
        procs: image.procs.as_slice().len(),
        ordinals: ordinal_marks(alloc, image.exports.as_slice())?,
    })
}

// Whether this is the number of one of so many, which count from 1.
fn is_number_of(number: u32, count: usize) -> bool
    ensures { IsTrue result ↔ IsNumberOf number count }
{
    1 <= number && number as usize <= count
}

// Whether a target names what is there.
fn names_one(named: &Named, target: FixTarget) -> bool
    ensures { IsTrue result ↔ NamesOne named.now target }
{
    match target {
        FixTarget::Internal { object, .. } => is_number_of(object, named.objects),
        FixTarget::Ordinal { import, .. } => is_number_of(import, named.imports),
        FixTarget::Named { import, name_at } => {
            is_number_of(import, named.imports) && (name_at as usize) < named.procs
        }
        FixTarget::Own { ordinal } => {
            let place = ordinal as usize;
            place < named.ordinals.len() && named.ordinals[place]
        }
    }
}

// Whether the fixups of a page can be its records, and name what is there.
fn page_fits(named: &Named, fixes: &[Fix]) -> bool
    ensures { IsTrue result ↔ PageFits named.now fixes.now }
{
    may_be_written(fixes) && fixes.iter().all(|fix| names_one(named, fix.target))
}

// The same of each page.
fn pages_fit(named: &Named, pages: &[Seq<Fix>]) -> bool
    ensures { IsTrue result ↔ All (PageFits named.now) pages.now }
{
    for page in pages {
        if !page_fits(named, page.as_slice()) {
            return false;
        }
    }
    true
}

// The same of each page of each object.
fn fixes_fit(named: &Named, objects: &[Seq<Seq<Fix>>]) -> bool
    ensures { IsTrue result ↔ All (All (PageFits named.now)) objects.now }
{
    for pages in objects {
        if !pages_fit(named, pages.as_slice()) {
            return false;
        }
    }
    true
}

// Whether each object has as many bytes as its size.
fn sizes_are(bytes: &[Bytes], objects: &[LaidObject]) -> bool
    ensures { IsTrue result ↔ (map length bytes.now ≡ map (λ o. o.size) objects.now) }
{
    if bytes.len() != objects.len() {
        return false;
    }
    for place in 0..bytes.len() {
        if bytes[place].as_slice().len() != objects[place].size as usize {
            return false;
        }
    }
    true
}

// Whether each object has fixups of each of its pages.
fn pages_are(fixes: &[Seq<Seq<Fix>>], objects: &[LaidObject]) -> bool
    ensures { IsTrue result ↔ (map length fixes.now ≡ map (λ o. page_count o.size) objects.now) }
{
    if fixes.len() != objects.len() {
        return false;
    }
    for place in 0..fixes.len() {
        if fixes[place].as_slice().len() != page_count(objects[place].size) as usize {
            return false;
        }
    }
    true
}

// Whether an object is there, where a place has one.
fn place_fits(place: Option<(u32, u32)>, objects: usize) -> bool
    ensures { IsTrue result ↔ IfSome place (λ p. IsNumberOf p.0 objects) }
{
    match place {
        Some((object, _)) => is_number_of(object, objects),
        None => true,
    }
}

// Whether the parts of an image fit that are no fixups.
fn parts_fit(image: &Image) -> bool
    ensures { IsTrue result ↔ PartsFit image.now }
{
    let objects = image.objects.as_slice();
    if !sizes_are(image.bytes.as_slice(), objects) {
        return false;
    }
    if !pages_are(image.fixes.as_slice(), objects) {
        return false;
    }
    if !place_fits(image.start, objects.len()) {
        return false;
    }
    if !place_fits(image.stack, objects.len()) {
        return false;
    }
    if image.name.bytes().is_empty() {
        return false;
    }
    exports_fit(image.exports.as_slice())
}

/// Whether an image can be written, as `lx_write::write_module` asks.
///
/// `Ordinal` where the exports have no ordinals: `write_module` refuses the image so.
pub fn can_be_written(alloc: Global, image: &Image) -> Result<bool, Fail<EntryRefusal>>
    ensures { Answers result
        (λ can. IsTrue can ↔ CanBeWritten image.now)
        (λ refusal. export_refusal image.now.exports ≡ Some refusal) }
{
    let named = named_by(alloc, image)?;
    if !parts_fit(image) {
        return Ok(false);
    }
    Ok(fixes_fit(&named, image.fixes.as_slice()))
}
