//! Commands, in the words in which they were asked.

ghost use Rattle.std.specs.Prelude.{◌≡◌, ◌++◌, ◌∷◌, [], codes, decimal, OnOk};
ghost use Rattle.session_model.specs.Text.{words};
ghost use Rattle.session_model.specs.Transcript.{span_words, written_words, key_text, command_words};
ghost use Rattle.line_words.specs.Words.{word_text};

use line_words::{Word, push_joined};
use load_model::{Command, Place};
use lx_types::{EntryKey, Name};
use std::alloc::AllocError;

fn key_word(key: &EntryKey) -> Word<'_>
    ensures { word_text result ≡ key_text key.now }
{
    match key {
        EntryKey::Ordinal(ordinal) => Word::Ordinal(*ordinal),
        EntryKey::Named(name) => Word::Text(name.bytes()),
    }
}

fn push_named<'a>(out: &mut Vec<u8>, verb: &'a [u8], name: &'a Name) -> Result<(), AllocError>
    ensures { OnOk result (out.new.items ≡ out.old.items ++ words (verb.now ∷ name.now ∷ [])) }
{
    push_joined(out, &[Word::Text(verb), Word::Text(name.bytes())])
}

fn push_span<'a>(out: &mut Vec<u8>, verb: &'a [u8], place: &'a Place) -> Result<(), AllocError>
    ensures { OnOk result (out.new.items ≡ out.old.items ++ words (verb.now ∷ span_words place.now)) }
{
    let name = Word::Text(place.module.bytes());
    let object = Word::Count(u64::from(place.object));
    let offset = Word::Count(u64::from(place.offset));
    let len = Word::Count(u64::from(place.len));
    push_joined(out, &[Word::Text(verb), name, object, offset, len])
}

fn push_written<'a>(
    out: &mut Vec<u8>,
    verb: &'a [u8],
    place: &'a Place,
    bytes: &'a [u8],
) -> Result<(), AllocError>
    ensures { OnOk result (out.new.items ≡ out.old.items ++ words (verb.now ∷ written_words place.now bytes.now)) }
{
    let name = Word::Text(place.module.bytes());
    let object = Word::Count(u64::from(place.object));
    let offset = Word::Count(u64::from(place.offset));
    push_joined(
        out,
        &[Word::Text(verb), name, object, offset, Word::Bytes(bytes)],
    )
}

fn push_query<'a>(out: &mut Vec<u8>, name: &'a Name, key: &'a EntryKey) -> Result<(), AllocError>
    ensures { OnOk result (out.new.items ≡ out.old.items ++ words (codes "query" ∷ name.now ∷ key_text key.now ∷ [])) }
{
    let key = key_word(key);
    push_joined(out, &[Word::Text(b"query"), Word::Text(name.bytes()), key])
}

fn push_getres(out: &mut Vec<u8>, name: &Name, ty: u16, id: u16) -> Result<(), AllocError>
    ensures { OnOk result (out.new.items ≡ out.old.items ++ words (codes "getres" ∷ name.now ∷ decimal ty ∷ decimal id ∷ [])) }
{
    let ty = Word::Count(u64::from(ty));
    let id = Word::Count(u64::from(id));
    push_joined(
        out,
        &[Word::Text(b"getres"), Word::Text(name.bytes()), ty, id],
    )
}

/// A command's words, with names as they are.
pub(crate) fn push_command(out: &mut Vec<u8>, command: &Command) -> Result<(), AllocError>
    ensures { OnOk result (out.new.items ≡ out.old.items ++ words (command_words command.now)) }
{
    match command {
        Command::Start(name) => push_named(out, b"start", name),
        Command::Load(name) => push_named(out, b"load", name),
        Command::Free(name) => push_named(out, b"free", name),
        Command::Touch(place) => push_span(out, b"touch", place),
        Command::Peek(place) => push_span(out, b"peek", place),
        Command::Shared(place) => push_span(out, b"shared", place),
        Command::Write(place, bytes) => push_written(out, b"write", place, bytes.as_slice()),
        Command::Debug(place, bytes) => push_written(out, b"debug", place, bytes.as_slice()),
        Command::Query(name, key) => push_query(out, name, key),
        Command::GetRes(name, ty, id) => push_getres(out, name, *ty, *id),
        Command::Exit => push_joined(out, &[Word::Text(b"exit")]),
    }
}
