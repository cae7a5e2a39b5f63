//! Steady lines.

ghost use Rattle.std.specs.Prelude.{◌≡◌, ◌++◌, ◌∷◌, [], OnOk};
ghost use Rattle.std.specs.List.{flat_map};
ghost use Rattle.load_model.specs.declared.commands.Refusal.TheVariants.{ArenaFull, InitFailed};
ghost use Rattle.load_model.specs.declared.commands.Reply.TheVariants.{Spot};
ghost use Rattle.session_model.specs.Transcript.{refusal_words, reply_words, line_text, script_text};
ghost use Rattle.line_words.specs.Words.{spaced};

use crate::commands::push_command;
use line_words::{Word, push_bytes, push_joined, push_line, push_spaced};
use load_model::{Command, Refusal, Reply};
use lx_types::ResSpot;
use session_model::{Line, ScriptLines};
use std::alloc::AllocError;

fn push_arena_full(
    out: &mut Vec<u8>,
    number: u64,
    of: u32,
    object: u32,
    size: u32,
) -> Result<(), AllocError>
    ensures { OnOk result (out.new.items ≡ out.old.items ++ spaced (refusal_words (ArenaFull number of object size))) }
{
    let of = Word::Count(u64::from(of));
    let object = Word::Count(u64::from(object));
    let size = Word::Count(u64::from(size));
    push_spaced(
        out,
        &[
            Word::Text(b"ArenaFull"),
            Word::Count(number),
            of,
            object,
            size,
        ],
    )
}

fn push_init_failed(out: &mut Vec<u8>, number: u64, by: u32) -> Result<(), AllocError>
    ensures { OnOk result (out.new.items ≡ out.old.items ++ spaced (refusal_words (InitFailed number by))) }
{
    let by = Word::Count(u64::from(by));
    push_spaced(out, &[Word::Text(b"InitFailed"), Word::Count(number), by])
}

fn push_text(out: &mut Vec<u8>, text: &[u8]) -> Result<(), AllocError>
    ensures { OnOk result (out.new.items ≡ out.old.items ++ spaced (text.now ∷ [])) }
{
    push_spaced(out, &[Word::Text(text)])
}

// A refusal by its name, with its fields.
fn push_refusal(out: &mut Vec<u8>, refusal: Refusal) -> Result<(), AllocError>
    ensures { OnOk result (out.new.items ≡ out.old.items ++ spaced (refusal_words refusal)) }
{
    match refusal {
        Refusal::Ended => push_text(out, b"Ended"),
        Refusal::Worn => push_text(out, b"Worn"),
        Refusal::Started => push_text(out, b"Started"),
        Refusal::NoModule => push_text(out, b"NoModule"),
        Refusal::NotLibrary => push_text(out, b"NotLibrary"),
        Refusal::NotProgram => push_text(out, b"NotProgram"),
        Refusal::NoEntry => push_text(out, b"NoEntry"),
        Refusal::ForwardLoop => push_text(out, b"ForwardLoop"),
        Refusal::Gate286 => push_text(out, b"Gate286"),
        Refusal::CountFull => push_text(out, b"CountFull"),
        Refusal::ArenaFull {
            number,
            of,
            object,
            size,
        } => push_arena_full(out, number, of, object, size),
        Refusal::InitFailed { number, by } => push_init_failed(out, number, by),
        Refusal::NotHeld => push_text(out, b"NotHeld"),
        Refusal::NotAttached => push_text(out, b"NotAttached"),
        Refusal::Range => push_text(out, b"Range"),
        Refusal::ReadOnly => push_text(out, b"ReadOnly"),
        Refusal::IsShared => push_text(out, b"IsShared"),
        Refusal::NotShared => push_text(out, b"NotShared"),
        Refusal::NotCode => push_text(out, b"NotCode"),
        Refusal::Invalid => push_text(out, b"Invalid"),
        Refusal::NotTouched { page } => {
            let page = Word::Count(u64::from(page));
            push_spaced(out, &[Word::Text(b"NotTouched"), page])
        }
        Refusal::NoResource => push_text(out, b"NoResource"),
    }
}

fn push_spot(out: &mut Vec<u8>, spot: ResSpot) -> Result<(), AllocError>
    ensures { OnOk result (out.new.items ≡ out.old.items ++ spaced (reply_words (Spot spot))) }
{
    let object = Word::Count(u64::from(spot.object));
    let offset = Word::Count(u64::from(spot.offset));
    let len = Word::Count(u64::from(spot.len));
    push_spaced(out, &[Word::Text(b"="), object, offset, len])
}

// What a command was answered.
fn push_reply(out: &mut Vec<u8>, reply: &Reply) -> Result<(), AllocError>
    ensures { OnOk result (out.new.items ≡ out.old.items ++ spaced (reply_words reply.now)) }
{
    match reply {
        Reply::Fine => push_text(out, b"ok"),
        Reply::Bytes(bytes) => {
            push_text(out, b"=")?;
            push_bytes(out, bytes.as_slice())
        }
        Reply::Address(address) => { push_spaced(out, &[Word::Text(b"="), Word::Hex(*address)]) }
        Reply::Spot(spot) => push_spot(out, *spot),
        Reply::Refused(refusal) => {
            push_text(out, b"refused")?;
            push_refusal(out, *refusal)
        }
    }
}

/// A steady line of a command and its reply, after so many entries.
pub(crate) fn push_answer(
    out: &mut Vec<u8>,
    front: u64,
    command: &Command,
    reply: &Reply,
) -> Result<(), AllocError>
    ensures { OnOk result (out.new.items
        ≡ out.old.items ++ line_text (record { front = front; command = command.now; reply = reply.now })) }
{
    out.extend_from_slice(b"  ")?;
    push_joined(out, &[Word::Text(b"at"), Word::Count(front)])?;
    out.push(b' ')?;
    push_command(out, command)?;
    push_reply(out, reply)?;
    out.push(b'\n')?;
    Ok(())
}

fn push_steady(out: &mut Vec<u8>, line: &Line) -> Result<(), AllocError>
    ensures { OnOk result (out.new.items ≡ out.old.items ++ line_text line.now) }
{
    push_answer(out, line.front, &line.command, &line.reply)
}

fn push_steadies(out: &mut Vec<u8>, lines: &[Line]) -> Result<(), AllocError>
    ensures { OnOk result (out.new.items ≡ out.old.items ++ flat_map line_text lines.now) }
{
    for line in lines {
        push_steady(out, line)?;
    }
    Ok(())
}

fn push_script(out: &mut Vec<u8>, script: &ScriptLines) -> Result<(), AllocError>
    ensures { OnOk result (out.new.items ≡ out.old.items ++ script_text script.now) }
{
    let pid = Word::Count(u64::from(script.pid));
    push_line(out, &[Word::Text(b"process"), pid])?;
    push_steadies(out, script.lines.as_slice())
}

/// Scripts, each with its steady lines.
pub(crate) fn push_scripts(out: &mut Vec<u8>, steady: &[ScriptLines]) -> Result<(), AllocError>
    ensures { OnOk result (out.new.items ≡ out.old.items ++ flat_map script_text steady.now) }
{
    for script in steady {
        push_script(out, script)?;
    }
    Ok(())
}
