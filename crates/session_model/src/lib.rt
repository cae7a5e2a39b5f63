//! What a session says, how its run is merged from a history and steady lines, and the transcript.
#![tactic(auto)]

mod kept;
mod laws;
mod limits;
mod sessions;
mod words;
mod worked;

pub use kept::{FailingLines, KeptLines, LineKind, ModLines};
pub use laws::{
    agreement_is_enough, merges_are_histories, session_limits, sessions_are_bounded,
    sessions_are_one,
};
pub use limits::{MAX_BYTES, MAX_COMMANDS, MAX_WORD};
pub use sessions::{
    Commands, FailingLine, Line, ModLine, Script, ScriptLines, Session, SessionKind, SessionRefusal,
};
pub use words::Words;
