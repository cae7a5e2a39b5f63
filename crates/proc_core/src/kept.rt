//! The board as the lock keeps it.

ghost use Rattle.std.specs.Prelude.{◌≡◌, length};

use load_core::Board;
use load_model::Entry;
use lx_types::Seq;
use mod_graph::Library;
use turn_lock::Chronicle;

/// What a board is about: a library, and the pairs of a process and a module whose initialisation fails in it. No value of
/// it is made.
pub struct About {
    pub library: Library,
    pub failing: Seq<(u32, u32)>,
}

/// The board that processes take turns at.
#[derive(Drop)]
pub struct Kept {
    pub board: Board,
}

impl Chronicle for Kept {
    type Item = Entry;

    type Subject = About;

    ghost history = { λ k. k.board.history };

    ghost by = { λ x. x.pid };

    ghost subject = { λ k. record { library = k.board.library; failing = k.board.failing } };

    fn count(&self) -> u64 {
        self.board.history().len() as u64
    }
}
