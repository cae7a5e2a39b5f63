//! A process: a view with its pass.

ghost use Rattle.std.specs.Prelude.{◌≡◌, length};
ghost use Rattle.proc_core.specs.Procs.{Holds};

use crate::kept::Kept;
use process_view::View;
use std::marker::Model;
use turn_lock::Pass;

/// A process of a loader: its pass, and what it keeps itself.
#[derive(Drop)]
pub struct Proc {
    pub(crate) pass: Pass<Kept>,
    pub(crate) view: View,
}

impl Model for Proc {
    ghost use Rattle.turn_lock.specs.Passes.{Idle};
    ghost use Rattle.proc_core.specs.Procs.{ProcState, Holds, proc_state};

    ghost Value = { ProcState };

    ghost view = { λ p. proc_state p.pass p.view };

    ghost invariant = { λ p. Idle p.pass.me × Holds (proc_state p.pass p.view) };
}

impl Proc {
    /// How many entries of the history the process was shown.
    pub fn front(&self) -> u64
        ensures front { result ≡ length self.now.known.seen }
        ensures holds { Holds self.now }
    {
        self.pass.front()
    }

    /// How many turns the process asked for.
    pub fn tickets(&self) -> u64
        ensures { result ≡ self.now.known.drawn }
    {
        self.pass.tickets()
    }

    // How many processes the loader has, as the first of them knows it.
    pub(crate) fn live(&self) -> u32
        ensures { result ≡ self.now.known.live }
    {
        self.pass.live()
    }

    /// The number of the process, from 1 to 16.
    pub fn pid(&self) -> u32
        ensures { result ≡ self.now.known.pid }
    {
        self.pass.pid()
    }
}
