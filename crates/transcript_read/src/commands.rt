//! Commands of a session, by their words.

ghost use Rattle.std.specs.Prelude.{◌≡◌, ◌<◌, ◌^◌, ◌∷◌, [], Some, length, IfOk, IfSome};
ghost use Rattle.load_model.specs.declared.commands.Command.{Command};
ghost use Rattle.session_model.specs.Transcript.{command_words};
ghost use Rattle.check_model.specs.Told.{IsSaid};
ghost use Rattle.transcript_read.specs.Words.{left_of};
ghost use Rattle.transcript_read.specs.Taken.{TakesPart};
ghost use Rattle.transcript_read.specs.Commands.{command_length, IsCommandText, IsLast, of_one, one_bytes};

use crate::cursor::Words;
use crate::refusals::is_word;
use line_words::push_joined;
use load_model::Command;
use lx_types::{Fail, NoMemory, Seq};
use session_model::{FailingLines, ModLines, Script, Session};
use session_text::{read_session, write_session};
use std::alloc::Global;

/// More bytes than the words of a command have.
const MOST: usize = 0x1_0000;

// How many words a command has that begins with this one.
fn command_length(first: &[u8]) -> usize
    ensures { result ≡ command_length first.now }
{
    if is_word(first, b"exit") {
        1
    } else if is_word(first, b"start") || is_word(first, b"load") || is_word(first, b"free") {
        2
    } else if is_word(first, b"query") {
        3
    } else if is_word(first, b"getres") {
        4
    } else {
        5
    }
}

// The bytes of a session of one script, whose one command has these words.
fn session_bytes(alloc: Global, text: &[u8]) -> Result<Vec<u8>, NoMemory>
    ensures { IfOk result (λ bytes. bytes.items ≡ one_bytes text.now) }
{
    let mut bytes = Vec::new(alloc);
    bytes.extend_from_slice(b"process 1\n")?;
    bytes.extend_from_slice(text)?;
    bytes.push(b'\n')?;
    Ok(bytes)
}

// The session of one script with this command.
fn session_of(alloc: Global, command: Command) -> Result<Session, NoMemory>
    ensures { IfOk result (λ session. session ≡ of_one command) }
{
    let mut commands = Vec::new(alloc);
    commands.push(command)?;
    let mut scripts = Vec::new(alloc);
    scripts.push(Script {
        pid: 1,
        commands: Seq::from_vec(commands),
    })?;
    Ok(Session {
        modules: ModLines::new(alloc),
        failing: FailingLines::new(alloc),
        scripts: Seq::from_vec(scripts),
    })
}

// The last command of a session.
fn last_command(session: Session) -> Option<Command>
    ensures some { IfSome result (λ c. IsLast session c) }
    ensures one { (c : Command) → session ≡ of_one c → result ≡ Some c }
{
    let mut scripts = session.scripts.into_vec();
    let script = scripts.pop()?;
    let mut commands = script.commands.into_vec();
    commands.pop()
}

// The command that a text is. A session may spell it in other ways too; a transcript has the one in which it is written.
fn command_of(alloc: Global, text: &[u8]) -> Result<Option<Command>, NoMemory>
    ensures { IfOk result (λ told. IsCommandText told text.now) }
{
    if text.len() >= MOST {
        return Ok(None);
    }
    let bytes = session_bytes(alloc, text)?;
    let session = match read_session(alloc, &bytes) {
        Ok(session) => session,
        Err(Fail::Said(_)) => return Ok(None),
        Err(Fail::NoMemory) => return Err(NoMemory),
    };
    let Some(command) = last_command(session) else {
        return Ok(None);
    };
    let session = session_of(alloc, command)?;
    let written = write_session(alloc, &session)?;
    if written.as_slice() == bytes.as_slice() {
        Ok(last_command(session))
    } else {
        Ok(None)
    }
}

/// Takes the words of a command.
pub(crate) fn command(alloc: Global, words: &mut Words<'_>) -> Result<Option<Command>, NoMemory>
    ensures { IfOk result (λ told. TakesPart command_words IsSaid told (left_of words.old) (left_of words.new)) }
{
    let count = command_length(words.next());
    let taken = words.some(alloc, count)?;
    if words.has_stopped() {
        return Ok(None);
    }
    let mut text = Vec::new(alloc);
    push_joined(&mut text, &taken)?;
    command_of(alloc, &text)
}
