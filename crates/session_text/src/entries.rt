//! Entries of a history.

ghost use Rattle.std.specs.Prelude.{◌≡◌, ◌++◌, ◌∷◌, [], codes, decimal, map, OnOk};
ghost use Rattle.std.specs.List.{flat_map};
ghost use Rattle.session_model.specs.Merging.{numbers_of};
ghost use Rattle.lx_types.specs.Escaped.{hex_address};
ghost use Rattle.session_model.specs.Text.{bytes_words};
ghost use Rattle.session_model.specs.Transcript.{module_text, how_text, kind_text, new_line, call_line, gone_line, place_words, deed_words, deed_lines, process_text, entry_text};
ghost use Rattle.line_words.specs.Words.{spaced, word_text};
ghost use Rattle.session_text.specs.Deeds.{bytes_deed_text};

use line_words::{Word, push_bytes, push_inner, push_joined, push_spaced};
use load_model::{Call, CallKind, Deed, Entry, Fresh, Gone, How};
use lx_types::PageId;
use mod_graph::Library;
use session_model::ScriptLines;
use std::alloc::AllocError;

// A module by its own name. One that the library does not have has none.
fn module_word(lib: &Library, module: u32) -> Word<'_>
    ensures { word_text result ≡ module_text lib.now «module» }
{
    if module < lib.len() {
        Word::Module(lib.module(module).name().bytes())
    } else {
        Word::Module(&[])
    }
}

fn how_word(how: How) -> Word<'static>
    ensures { word_text result ≡ how_text how }
{
    match how {
        How::Start => Word::Text(b"start"),
        How::Load => Word::Text(b"load"),
    }
}

fn kind_word(kind: CallKind) -> Word<'static>
    ensures { word_text result ≡ kind_text kind }
{
    match kind {
        CallKind::Init => Word::Text(b"init"),
        CallKind::Term => Word::Text(b"term"),
        CallKind::Main => Word::Text(b"main"),
    }
}

fn push_addresses(out: &mut Vec<u8>, addresses: &[u32]) -> Result<(), AllocError>
    ensures { OnOk result (out.new.items ≡ out.old.items ++ spaced (map hex_address addresses.now)) }
{
    for address in addresses {
        push_spaced(out, &[Word::Hex(*address)])?;
    }
    Ok(())
}

fn push_new(out: &mut Vec<u8>, lib: &Library, fresh: &Fresh) -> Result<(), AllocError>
    ensures { OnOk result (out.new.items ≡ out.old.items ++ new_line lib.now fresh.now) }
{
    let module = module_word(lib, fresh.module);
    out.extend_from_slice(b"  ")?;
    push_joined(
        out,
        &[Word::Text(b"new"), Word::Count(fresh.serial), module],
    )?;
    push_addresses(out, fresh.bases.as_slice())?;
    out.push(b'\n')?;
    Ok(())
}

fn push_call(out: &mut Vec<u8>, lib: &Library, call: Call) -> Result<(), AllocError>
    ensures { OnOk result (out.new.items ≡ out.old.items ++ call_line lib.now call) }
{
    let kind = kind_word(call.kind);
    let serial = Word::Count(call.serial);
    let module = module_word(lib, call.module);
    let address = Word::Hex(call.address);
    push_inner(out, &[Word::Text(b"call"), kind, serial, module, address])
}

fn push_gone(out: &mut Vec<u8>, lib: &Library, gone: Gone) -> Result<(), AllocError>
    ensures { OnOk result (out.new.items ≡ out.old.items ++ gone_line lib.now gone) }
{
    let module = module_word(lib, gone.module);
    push_inner(
        out,
        &[Word::Text(b"gone"), Word::Count(gone.serial), module],
    )
}

fn push_news(out: &mut Vec<u8>, lib: &Library, fresh: &[Fresh]) -> Result<(), AllocError>
    ensures { OnOk result (out.new.items ≡ out.old.items ++ flat_map (new_line lib.now) fresh.now) }
{
    for one in fresh {
        push_new(out, lib, one)?;
    }
    Ok(())
}

fn push_calls(out: &mut Vec<u8>, lib: &Library, calls: &[Call]) -> Result<(), AllocError>
    ensures { OnOk result (out.new.items ≡ out.old.items ++ flat_map (call_line lib.now) calls.now) }
{
    for call in calls {
        push_call(out, lib, *call)?;
    }
    Ok(())
}

fn push_leavers(out: &mut Vec<u8>, lib: &Library, gone: &[Gone]) -> Result<(), AllocError>
    ensures { OnOk result (out.new.items ≡ out.old.items ++ flat_map (gone_line lib.now) gone.now) }
{
    for one in gone {
        push_gone(out, lib, *one)?;
    }
    Ok(())
}

// Where bytes were written or read.
#[derive(Clone, Copy)]
struct Spot {
    serial: u64,
    module: u32,
    object: u32,
    offset: u32,
}

impl Spot {
    fn of(serial: u64, module: u32, object: u32, offset: u32) -> Spot
        ensures { result ≡ record { serial = serial; «module» = «module»; object = object; offset = offset } }
    {
        Spot {
            serial,
            module,
            object,
            offset,
        }
    }
}

fn push_bytes_at<'a>(
    out: &mut Vec<u8>,
    lib: &'a Library,
    verb: &'a [u8],
    spot: Spot,
    bytes: &[u8],
) -> Result<(), AllocError>
    ensures { OnOk result (out.new.items ≡ out.old.items
        ++ spaced (verb.now ∷ place_words lib.now spot.serial spot.«module» spot.object spot.offset ++ codes "=" ∷ bytes_words bytes.now)) }
{
    let serial = Word::Count(spot.serial);
    let module = module_word(lib, spot.module);
    let object = Word::Count(u64::from(spot.object));
    let offset = Word::Count(u64::from(spot.offset));
    push_spaced(
        out,
        &[
            Word::Text(verb),
            serial,
            module,
            object,
            offset,
            Word::Text(b"="),
        ],
    )?;
    push_bytes(out, bytes)
}

fn push_entering(out: &mut Vec<u8>, lib: &Library, how: How, module: u32) -> Result<(), AllocError>
    ensures { OnOk result (out.new.items ≡ out.old.items ++ spaced (how_text how ∷ module_text lib.now «module» ∷ [])) }
{
    push_spaced(out, &[how_word(how), module_word(lib, module)])
}

fn push_fault(
    out: &mut Vec<u8>,
    lib: &Library,
    serial: u64,
    module: u32,
    page: PageId,
) -> Result<(), AllocError>
    ensures { OnOk result (out.new.items
        ≡ out.old.items ++ spaced (codes "fault" ∷ place_words lib.now serial «module» page.object page.page)) }
{
    let serial = Word::Count(serial);
    let module = module_word(lib, module);
    let object = Word::Count(u64::from(page.object));
    let page = Word::Count(u64::from(page.page));
    push_spaced(out, &[Word::Text(b"fault"), serial, module, object, page])
}

// What was written or read, and where.
fn push_bytes_deed(out: &mut Vec<u8>, lib: &Library, deed: &Deed) -> Result<(), AllocError>
    ensures { OnOk result (out.new.items ≡ out.old.items ++ bytes_deed_text lib.now deed.now) }
{
    match deed {
        Deed::Write {
            serial,
            module,
            object,
            offset,
            bytes,
        } => {
            let spot = Spot::of(*serial, *module, *object, *offset);
            push_bytes_at(out, lib, b"write", spot, bytes.as_slice())
        }
        Deed::Debug {
            serial,
            module,
            object,
            offset,
            bytes,
        } => {
            let spot = Spot::of(*serial, *module, *object, *offset);
            push_bytes_at(out, lib, b"debug", spot, bytes.as_slice())
        }
        Deed::Shared {
            serial,
            module,
            object,
            offset,
            bytes,
        } => {
            let spot = Spot::of(*serial, *module, *object, *offset);
            push_bytes_at(out, lib, b"shared", spot, bytes.as_slice())
        }
        _ => Ok(()),
    }
}

// The words of an entry after its process.
fn push_deed_words(out: &mut Vec<u8>, lib: &Library, deed: &Deed) -> Result<(), AllocError>
    ensures { OnOk result (out.new.items ≡ out.old.items ++ spaced (deed_words lib.now deed.now)) }
{
    match deed {
        Deed::Enter { how, module, .. } => push_entering(out, lib, *how, *module),
        Deed::Full {
            how,
            module,
            of,
            object,
            size,
        } => {
            push_entering(out, lib, *how, *module)?;
            let of = module_word(lib, *of);
            let object = Word::Count(u64::from(*object));
            let size = Word::Count(u64::from(*size));
            push_spaced(out, &[Word::Text(b"full"), of, object, size])
        }
        Deed::Failed {
            how,
            module,
            by,
            ..
        } => {
            push_entering(out, lib, *how, *module)?;
            push_spaced(out, &[Word::Text(b"failed"), module_word(lib, *by)])
        }
        Deed::Free { module, .. } => {
            push_spaced(out, &[Word::Text(b"free"), module_word(lib, *module)])
        }
        Deed::Exit { .. } => push_spaced(out, &[Word::Text(b"exit")]),
        Deed::Fault {
            serial,
            module,
            page,
        } => push_fault(out, lib, *serial, *module, *page),
        Deed::Write { .. } | Deed::Debug { .. } | Deed::Shared { .. } => {
            push_bytes_deed(out, lib, deed)
        }
    }
}

// The lines below an entry.
fn push_deed_lines(out: &mut Vec<u8>, lib: &Library, deed: &Deed) -> Result<(), AllocError>
    ensures { OnOk result (out.new.items ≡ out.old.items ++ deed_lines lib.now deed.now) }
{
    match deed {
        Deed::Enter { fresh, calls, .. } => {
            push_news(out, lib, fresh.as_slice())?;
            push_calls(out, lib, calls.as_slice())
        }
        Deed::Failed {
            fresh,
            calls,
            gone,
            ..
        } => {
            push_news(out, lib, fresh.as_slice())?;
            push_calls(out, lib, calls.as_slice())?;
            push_leavers(out, lib, gone.as_slice())
        }
        Deed::Free { calls, gone, .. } | Deed::Exit { calls, gone } => {
            push_calls(out, lib, calls.as_slice())?;
            push_leavers(out, lib, gone.as_slice())
        }
        Deed::Full { .. }
        | Deed::Fault { .. }
        | Deed::Write { .. }
        | Deed::Debug { .. }
        | Deed::Shared { .. } => Ok(()),
    }
}

// The number of a process's script, where processes count from 1 in the order of the scripts.
fn script_number(steady: &[ScriptLines], pid: u32) -> u32
    ensures { process_text (numbers_of steady.now) pid ≡ codes "P" ++ decimal result }
{
    if pid == 0 {
        return 0;
    }
    match steady.get(pid as usize - 1) {
        Some(script) => script.pid,
        None => 0,
    }
}

/// An entry with its number, and the lines below it.
pub(crate) fn push_entry(
    out: &mut Vec<u8>,
    lib: &Library,
    steady: &[ScriptLines],
    number: u64,
    entry: &Entry,
) -> Result<(), AllocError>
    ensures { OnOk result (out.new.items
        ≡ out.old.items ++ entry_text lib.now (numbers_of steady.now) (number, entry.now)) }
{
    let pid = script_number(steady, entry.pid);
    push_joined(out, &[Word::Count(number), Word::Process(pid)])?;
    push_deed_words(out, lib, &entry.deed)?;
    out.push(b'\n')?;
    push_deed_lines(out, lib, &entry.deed)
}
