//! The board: what a process has in its turn, and how one is made.

ghost use Rattle.std.specs.Prelude.{◌≡◌, ◌<◌, [], true, length, IfOk};
ghost use Rattle.std.specs.Arc.{arc_value};
ghost use Rattle.load_model.specs.State.{pids, is_among};
ghost use Rattle.load_model.specs.State as state;
ghost use Rattle.load_core.specs.BoardState.{state_of, IsLegal};

use crate::residence_parts::ResidenceParts;
use load_model::{Entry, History};
use lx_types::{NoMemory, Seq};
use mod_graph::Library;
use mod_refs::Refs;
use page_frames::Keeper;
use residence_table::ResidenceTable;
use std::alloc::Global;
use std::marker::Model;
use std::sync::Arc;

/// The history of what processes did with the modules of a library, and the residences that stand after it. The
/// history is legal: each entry is what the loader with one thread does at its place. It keeps one residence of a serial number,
/// and that is what it hands out.
pub struct Board {
    pub(crate) alloc: Global,
    pub(crate) lib: Arc<Library>,
    pub(crate) failing: Vec<(u32, u32)>,
    pub(crate) refs: Refs,
    pub(crate) table: ResidenceTable<ResidenceParts>,
    pub(crate) keeper: Keeper,
    pub(crate) history: Vec<Entry>,
}

// Dropped by a call, as lists are (`Seq`).
impl Drop for Board {
    fn drop(self) {
        let Board {
            alloc: _,
            lib,
            failing,
            refs,
            table,
            keeper,
            history,
        } = self;
        drop(lib);
        drop(failing);
        drop(refs);
        drop(table);
        drop(keeper);
        drop(history);
    }
}

impl Model for Board {
    ghost use Rattle.load_core.specs.BoardState.{BoardState};
    ghost use Rattle.load_core.specs.Inside.{board_state_in, KeepsAll};

    ghost Value = { BoardState };

    ghost view = { board_state_in };

    ghost invariant = { KeepsAll };
}

impl Board {
    /// The board of a library with which nothing was done yet, and where no initialisation fails.
    pub fn make(alloc: Global, lib: Arc<Library>) -> Result<Board, NoMemory>
        ensures { IfOk result (λ b. b ≡ record { library = arc_value lib; failing = []; history = []; keeper = b.keeper }) }
    {
        Board::make_with(alloc, lib, Vec::new(alloc))
    }

    /// The same, where the initialisations of these pairs fail, each a process and a module.
    pub fn make_with(
        alloc: Global,
        lib: Arc<Library>,
        failing: Vec<(u32, u32)>,
    ) -> Result<Board, NoMemory>
        ensures { IfOk result (λ b. b ≡ record { library = arc_value lib; failing = failing.items; history = []; keeper = b.keeper }) }
    {
        let refs = Refs::make(alloc, &lib)?;
        Ok(Board {
            alloc,
            lib,
            failing,
            refs,
            table: ResidenceTable::new(alloc),
            keeper: Keeper::new(),
            history: Vec::new(alloc),
        })
    }

    /// The library.
    pub fn library(&self) -> &Library
        ensures { result.now ≡ self.now.library }
    {
        &self.lib
    }

    /// The pairs of a process and a module whose initialisation fails in it.
    pub fn failing(&self) -> &[(u32, u32)]
        ensures { result.now ≡ self.now.failing }
    {
        self.failing.as_slice()
    }

    /// What was done, the oldest first. It is legal.
    pub fn history(&self) -> &[Entry]
        ensures history { result.now ≡ self.now.history }
        ensures legal { IsLegal self.now }
    {
        self.history.as_slice()
    }

    /// What was done, by value. It takes no memory.
    pub fn into_history(self) -> History
        ensures history { result ≡ self.history }
        ensures legal { IsLegal self }
    {
        let Board {
            alloc: _,
            lib: _,
            failing: _,
            refs: _,
            table: _,
            keeper: _,
            history,
        } = self;
        Seq::from_vec(history)
    }

    /// Whether process `pid` reaches module `m`. The process may have ended.
    pub fn reaches(&self, pid: u32, m: u32) -> bool
        requires process { is_among pids pid ≡ true }
        requires module { m < length self.now.library }
        ensures { result ≡ state.reaches self.now.library ((state_of self.now).processes pid) m }
    {
        self.refs.reaches(pid, m)
    }
}
