//! The items of a transcript, as code has them.

ghost use Rattle.std.specs.Prelude.{◌≡◌};
ghost use Rattle.session_model.specs.Merging.{is_command_of};
ghost use Rattle.check_model.specs.Checks.{process_of};
ghost use Rattle.check_core.specs.ToldItems.{item_of, item_shown};

use crate::counts::is_fault;
use load_model::Entry;
use session_model::Line;

/// A steady line of a process, with the number of its line, and how many entries stand in front of the one above it.
#[derive(Clone, Copy)]
pub struct ToldLine<'a> {
    pub pid: u32,
    pub number: u64,
    pub low: u64,
    pub line: &'a Line,
}

/// An entry, with the number of its first line.
#[derive(Clone, Copy)]
pub struct ToldEntry<'a> {
    pub number: u64,
    pub entry: &'a Entry,
}

/// An entry of the history, or a steady line of a process.
#[derive(Clone, Copy)]
pub enum ToldItem<'a> {
    Entry(ToldEntry<'a>),
    Line(ToldLine<'a>),
}

impl ToldItem<'_> {
    /// The process whose item it is.
    pub fn process(&self) -> u32
        ensures { result ≡ process_of (item_of self.now) }
    {
        match self {
            ToldItem::Entry(told) => told.entry.pid,
            ToldItem::Line(told) => told.pid,
        }
    }

    /// The number of its line, or of its first one.
    pub fn number(&self) -> u64
        ensures { result ≡ (item_shown self.now).number }
    {
        match self {
            ToldItem::Entry(told) => told.number,
            ToldItem::Line(told) => told.number,
        }
    }

    /// Whether it is for a command of its process: it is no fault.
    #[tactic(auto, using(crate::proofs::MergedItems::own_command))]
    pub fn is_command(&self) -> bool
        ensures { result ≡ is_command_of (process_of (item_of self.now)) (item_of self.now) }
    {
        match self {
            ToldItem::Entry(told) => !is_fault(&told.entry.deed),
            ToldItem::Line(_) => true,
        }
    }
}
