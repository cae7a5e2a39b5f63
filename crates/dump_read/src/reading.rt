//! The listing that a dump tells.

ghost use Rattle.std.specs.Prelude.{◌≡◌, ◌≤◌, ◌<◌, ◌^◌, ◌&&◌, length, IfOk};
ghost use Rattle.lx_types.specs.Answers.{Answers};
ghost use Rattle.dump_model.specs.declared.listing.Listing.{Listing};
ghost use Rattle.dump_model.specs.Bounds.{IsListing};
ghost use Rattle.dump_model.specs.Dumps.{Dump, IsDump, RefusesAt};
ghost use Rattle.dump_read.specs.Taken.{Reads, shut};
ghost use Rattle.dump_read.specs.Ends.{NotDump, ends, ends_open};

use crate::entries::{entries, imports, names};
use crate::head::module_head;
use crate::pages::objects;
use crate::reader::Reader;
use dump_model::{DumpRefusal, Listing};
use lx_types::{Fail, NoMemory};
use std::alloc::Global;

// All lines of a dump.
fn whole(alloc: Global, reader: &mut Reader<'_>) -> Result<Listing, NoMemory>
    ensures { IfOk result (λ l. Reads Dump IsListing shut l reader.old reader.new) }
{
    let head = module_head(alloc, reader)?;
    let objects = objects(alloc, reader)?;
    let imports = imports(alloc, reader)?;
    let entries = entries(alloc, reader)?;
    let names = names(alloc, reader)?;
    reader.word(b"end\n");
    Ok(Listing {
        name: head.name,
        library: head.library,
        flags: head.flags,
        start: head.start,
        objects,
        imports,
        entries,
        names,
    })
}

// How many lines have an end in these bytes.
fn line_ends(bytes: &[u8]) -> usize
    ensures count { result ≡ ends bytes.now }
    ensures few { result ≤ length bytes.now }
{
    let mut count = 0;
    for byte in bytes {
        if *byte == b'\n' {
            count += 1;
        }
    }
    count
}

// Whether the last line of bytes has no end.
fn is_open(bytes: &[u8]) -> bool
    ensures { result ≡ ends_open bytes.now }
{
    if bytes.is_empty() {
        return false;
    }
    bytes[bytes.len() - 1] != b'\n'
}

// Whether bytes end within a line with which a dump may go on.
fn ends_within(begun: bool, bytes: &[u8]) -> bool
    ensures { result ≡ begun && ends_open bytes.now }
{
    if begun {
        return is_open(bytes);
    }
    false
}

// The line at which bytes are refused that a reader has not read as a dump.
fn refused_line(bytes: &[u8], reader: &Reader<'_>) -> u32
    requires short { length bytes.now < 2 ^ 32 }
    requires refused { NotDump bytes.now reader.now }
    ensures { RefusesAt bytes.now result }
{
    let taken = &bytes[..bytes.len() - reader.left()];
    let ends = line_ends(taken) as u32;
    if ends_within(reader.has_begun(), bytes) {
        return ends + 2;
    }
    ends + 1
}

/// The listing whose dump the bytes are, in time linear in them.
///
/// It is refused where they are no dump, at the first line with which, and with those before it, no dump begins; where a
/// dump begins with all of the bytes, at the line after the last. A dump is that of one listing, and that is read.
pub fn read_dump(alloc: Global, bytes: &[u8]) -> Result<Listing, Fail<DumpRefusal>>
    requires { length bytes.now < 2 ^ 32 }
    ensures answer { Answers result (λ l. IsDump bytes.now l) (λ refusal. RefusesAt bytes.now refusal.line) }
    ensures one { (l : Listing) → IsDump bytes.now l → Answers result (λ m. m ≡ l) (λ _. ⊥) }
{
    let mut reader = Reader::of(bytes);
    let listing = whole(alloc, &mut reader)?;
    if reader.has_stopped() {
        let line = refused_line(bytes, &reader);
        return Err(Fail::Said(DumpRefusal { line }));
    }
    if reader.left() > 0 {
        let line = refused_line(bytes, &reader);
        return Err(Fail::Said(DumpRefusal { line }));
    }
    Ok(listing)
}
