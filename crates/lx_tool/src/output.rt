//! Putting a text into a sink.
ghost use Rattle.std.specs.Prelude.{◌≤◌, ◌⊎◌, OnOk, OnErr};
ghost use Rattle.std.specs.Io.KnownBytes.{Appends};
ghost use Rattle.lx_ports.specs.Counts.{Rose};
ghost use Rattle.answer_model.specs.Ends.{AppendsPart};
ghost use Rattle.lx_tool.specs.Running.{Puts};

use answer_model::{Said, WRITE_FAILED};
use lx_ports::{Sink, SinkFailed};

/// Puts the whole text. Where a put fails, some of it from the front on was put before.
pub fn put_whole<S: Sink>(out: &mut S, text: &[u8]) -> Result<(), SinkFailed>
    ensures whole { OnOk result
        (Appends (S.state out.old).contents (S.state out.new).contents text.now) }
    ensures part { OnErr result
        (AppendsPart (S.state out.old).contents (S.state out.new).contents text.now) }
    ensures failed { OnErr result (Rose (S.state out.old).faults (S.state out.new).faults) }
    ensures faults_stand { (S.state out.old).faults ≤ (S.state out.new).faults }
{
    let mut rest = text;
    while !rest.is_empty() {
        let count = out.put(rest)?;
        rest = &rest[count..];
    }
    Ok(())
}

/// Puts the whole text, and answers the status: this one, or that writing failed.
pub fn put_text<S: Sink>(out: &mut S, status: u8, text: &[u8]) -> u8
    ensures { Puts (record { status = status; text = text.now }) (S.state out.old) (S.state out.new) result }
{
    match put_whole(out, text) {
        Ok(()) => status,
        Err(_) => WRITE_FAILED,
    }
}

/// Puts what is said, and answers the status.
pub fn put_said<S: Sink>(out: &mut S, said: &Said) -> u8
    ensures { Puts said.now (S.state out.old) (S.state out.new) result }
{
    put_text(out, said.status, said.text.as_slice())
}
