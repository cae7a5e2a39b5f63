//! What commands are answered.

ghost use Rattle.std.specs.Prelude.{◌≡◌, ◌∷◌, [], codes, IfOk};
ghost use Rattle.std.specs.List.{AllByRecursion};
ghost use Rattle.session_model.specs.Transcript.{refusal_words, reply_words};
ghost use Rattle.check_model.specs.Told.{Has32, IsByte, IsRefusal, IsReplyTo};
ghost use Rattle.transcript_read.specs.Words.{left_of};
ghost use Rattle.transcript_read.specs.Taken.{Tells};
ghost use Rattle.transcript_read.specs.Rows.{Any, address_row, fine_row, shown_row, refused_row, spot_row};
ghost use Rattle.transcript_read.specs.Ranges.{IsSpot};

use crate::cursor::Words;
use crate::refusals::refusal;
use load_model::{Command, Refusal, Reply};
use lx_types::{Bytes, NoMemory, ResSpot};
use std::alloc::Global;

fn refused(words: Words<'_>) -> Option<Refusal>
    ensures { Tells refused_row IsRefusal result (left_of words.entry) }
{
    let mut words = words;
    words.known(b"refused");
    if words.has_stopped() {
        return None;
    }
    refusal(words)
}

fn fine(words: Words<'_>) -> Option<()>
    ensures { Tells fine_row Any result (left_of words.entry) }
{
    let mut words = words;
    words.known(b"ok");
    words.ending(())
}

fn shown(alloc: Global, words: Words<'_>) -> Result<Option<Bytes>, NoMemory>
    ensures { IfOk result (λ told. Tells shown_row (AllByRecursion IsByte) told (left_of words.entry)) }
{
    let mut words = words;
    words.known(b"=");
    let bytes = words.bytes(alloc)?;
    Ok(words.ending(bytes))
}

fn address(words: Words<'_>) -> Option<u32>
    ensures { Tells address_row Has32 result (left_of words.entry) }
{
    let mut words = words;
    words.known(b"=");
    let address = words.address();
    words.ending(address)
}

fn spot(words: Words<'_>) -> Option<ResSpot>
    ensures { Tells spot_row IsSpot result (left_of words.entry) }
{
    let mut words = words;
    words.known(b"=");
    let object = words.number();
    let offset = words.number();
    let len = words.number();
    words.ending(ResSpot {
        object,
        offset,
        len,
    })
}

/// What such a command can be answered.
pub(crate) fn reply(
    alloc: Global,
    words: Words<'_>,
    command: &Command,
) -> Result<Option<Reply>, NoMemory>
    ensures { IfOk result (λ told. Tells reply_words (IsReplyTo command.now) told (left_of words.entry)) }
{
    if let Some(refusal) = refused(words) {
        return Ok(Some(Reply::Refused(refusal)));
    }
    match command {
        Command::Touch(_) => {
            let Some(()) = fine(words) else {
                return Ok(None);
            };
            Ok(Some(Reply::Fine))
        }
        Command::Peek(_) => {
            let Some(bytes) = shown(alloc, words)? else {
                return Ok(None);
            };
            Ok(Some(Reply::Bytes(bytes)))
        }
        Command::Query(..) => {
            let Some(address) = address(words) else {
                return Ok(None);
            };
            Ok(Some(Reply::Address(address)))
        }
        Command::GetRes(..) => {
            let Some(spot) = spot(words) else {
                return Ok(None);
            };
            Ok(Some(Reply::Spot(spot)))
        }
        _ => Ok(None),
    }
}
