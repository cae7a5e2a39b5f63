//! What a process asks, done: one call for all that it may ask.

ghost use Rattle.std.specs.Prelude.{◌≡◌, true, IfOk, OnOk, OnErr};
ghost use Rattle.load_model.specs.State.{pids, is_among};
ghost use Rattle.load_core.specs.BoardState.{MayAsk};
ghost use Rattle.load_core.specs.Answered.{after_ask, IsReady, IsAnswerTo, buffer_after};

use crate::answers::Answer;
use crate::board::Board;
use load_model::Ask;
use lx_types::NoMemory;

impl Board {
    /// Process `pid` asks this. What it takes of memory it takes before anything changes. A read of shared bytes has
    /// them in the buffer: the caller puts the bytes there that the file has, with their fixups.
    pub fn act(&mut self, pid: u32, ask: Ask, buffer: &mut [u8]) -> Result<Answer, NoMemory>
        requires process { is_among pids pid ≡ true }
        requires may { MayAsk self.old pid ask }
        requires ready { IsReady self.old ask buffer.old }
        ensures entry { OnOk result (self.new ≡ after_ask self.old pid ask) }
        ensures answer { IfOk result (IsAnswerTo self.old pid ask) }
        ensures buffer { OnOk result (buffer.new ≡ buffer_after self.old pid ask buffer.old) }
        ensures err { OnErr result ((self.new ≡ self.old) × (buffer.new ≡ buffer.old)) }
    {
        match ask {
            Ask::Enter { how, module } => Ok(Answer::Loaded(self.load(pid, module, how)?)),
            Ask::Free { module } => {
                self.free(pid, module)?;
                Ok(Answer::Done)
            }
            Ask::Exit => {
                self.exit(pid)?;
                Ok(Answer::Done)
            }
            Ask::Fault { serial, page, .. } => Ok(Answer::Claimed(self.fault(pid, serial, page)?)),
            Ask::Write {
                serial,
                object,
                offset,
                bytes,
                ..
            } => {
                self.write(pid, serial, object, offset, bytes.as_slice())?;
                Ok(Answer::Done)
            }
            Ask::Debug {
                serial,
                object,
                offset,
                bytes,
                ..
            } => {
                self.debug(pid, serial, object, offset, bytes.as_slice())?;
                Ok(Answer::Done)
            }
            Ask::Shared {
                serial,
                object,
                offset,
                ..
            } => {
                // It is legal: so the serial number is of one module, the one that is asked for.
                self.history();
                self.read_shared(pid, serial, object, offset, buffer)?;
                Ok(Answer::Done)
            }
        }
    }
}
