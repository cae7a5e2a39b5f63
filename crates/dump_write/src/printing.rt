//! The dump of a listing.

ghost use Rattle.std.specs.Prelude.{◌≡◌, ◌++◌, ◌∷◌, [], OnOk, IfOk};
ghost use Rattle.session_model.specs.Text.{line_of};
ghost use Rattle.dump_model.specs.Lines.{kind_word, start_words, module_line};
ghost use Rattle.dump_model.specs.Dumps.{Dump};
ghost use Rattle.line_words.specs.Words.{leading};

use crate::entries::{push_entries, push_imports, push_names};
use crate::objects::push_objects;
use dump_model::Listing;
use line_words::{Word, push_leading, push_line};
use lx_types::{Bytes, NoMemory, Seq};
use std::alloc::{AllocError, Global};

fn push_kind(out: &mut Vec<u8>, library: bool) -> Result<(), AllocError>
    ensures { OnOk result (out.new.items ≡ out.old.items ++ leading (kind_word library ∷ [])) }
{
    if library {
        push_leading(out, &[Word::Text(b"library")])
    } else {
        push_leading(out, &[Word::Text(b"program")])
    }
}

fn push_start(out: &mut Vec<u8>, start: Option<(u32, u32)>) -> Result<(), AllocError>
    ensures { OnOk result (out.new.items ≡ out.old.items ++ line_of (start_words start)) }
{
    match start {
        Some((object, offset)) => {
            let object = Word::Number(object);
            push_line(out, &[object, Word::Number(offset)])
        }
        None => push_line(out, &[Word::Text(b"none")]),
    }
}

fn push_module(out: &mut Vec<u8>, l: &Listing) -> Result<(), AllocError>
    ensures { OnOk result (out.new.items ≡ out.old.items ++ module_line l.now) }
{
    let name = Word::Name(l.name.bytes());
    push_leading(out, &[Word::Text(b"module"), name])?;
    push_kind(out, l.library)?;
    push_leading(out, &[Word::Text(b"flags"), Word::Hex(l.flags)])?;
    push_leading(out, &[Word::Text(b"start")])?;
    push_start(out, l.start)
}

/// The dump of a listing, in time linear in the text.
///
/// A line tells the module; then each object has a line, after it each of its pages, and after a page each of its
/// fixups; then come the import modules, the entries and the names, and the line `end`. Flags and bases have eight
/// hexadecimal digits, all other numbers are decimal, and names have their escapes, the empty one being `%`.
pub fn dump(alloc: Global, l: &Listing) -> Result<Bytes, NoMemory>
    ensures { IfOk result (λ text. text ≡ Dump l.now) }
{
    let mut out = Vec::new(alloc);
    push_module(&mut out, l)?;
    push_objects(&mut out, l.objects.as_slice())?;
    push_imports(&mut out, l.imports.as_slice())?;
    push_entries(&mut out, l.entries.as_slice())?;
    push_names(&mut out, l.names.as_slice())?;
    push_line(&mut out, &[Word::Text(b"end")])?;
    Ok(Seq::from_vec(out))
}
