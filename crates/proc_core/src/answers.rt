//! What calls on processes and their loader answer.

ghost use Rattle.std.specs.Prelude.{◌≡◌};

use load_model::{Entry, History};
use lx_types::Bytes;
use std::marker::Model;

/// A command that was carried out has an entry: its number in the history, from 1.
#[derive(Clone, Copy)]
pub struct Done {
    pub number: u64,
}

/// What a command with an entry comes to: its number, and the bytes that were read.
#[derive(Drop)]
pub(crate) struct Acted {
    pub(crate) done: Done,
    pub(crate) bytes: Bytes,
}

/// The history of a loader that was closed. It is made by `Loader::close` alone.
#[derive(Drop)]
pub struct Closed {
    history: History,
}

impl Model for Closed {
    ghost use Rattle.std.specs.Prelude.{List};
    ghost use Rattle.load_model.specs.declared.deeds.Entry.{Entry};

    ghost Value = { List Entry };

    ghost view = { λ c. c.history };
}

impl Closed {
    // What the lock has at the end.
    pub(crate) fn of(history: History) -> Closed
        ensures { result ≡ history }
    {
        Closed { history }
    }

    /// What was done, the oldest first. It takes no memory.
    pub fn history(&self) -> &[Entry]
        ensures { result.now ≡ self.now }
    {
        self.history.as_slice()
    }
}
