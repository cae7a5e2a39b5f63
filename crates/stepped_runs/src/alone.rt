//! Views of processes over one board, in one thread, without turns.

ghost use Rattle.std.specs.Prelude.{◌≡◌, ◌≤◌, [], IfOk};
ghost use Rattle.std.specs.Arc.{arc_value};
ghost use Rattle.stepped_runs.specs.OneThread.{AreViews};
ghost use Rattle.lx_types.specs.declared.limits.TheConstants.{MAX_PROCESSES};

use crate::going::carry_out;
use crate::steady::Steady;
use crate::steps::{Step, command_of};
use load_core::Board;
use load_model::{Command, Reply, histories_grow, others_leave_alike, views_stand};
use lx_types::NoMemory;
use mod_graph::Library;
use process_view::View;
use session_text::{Text, print};
use std::alloc::Global;
use std::marker::Model;
use std::sync::{Arc, Wait};

/// A board with the views of its processes, and what each was answered without an entry.
#[derive(Drop)]
pub struct Alone {
    board: Board,
    views: Vec<View>,
    steady: Steady,
}

impl Model for Alone {
    ghost use Rattle.std.specs.Prelude.{List};
    ghost use Rattle.load_core.specs.BoardState.{BoardState};
    ghost use Rattle.process_view.specs.ProcessViews.{ProcessView};
    ghost use Rattle.stepped_runs.specs.OneThread.{AreViews};

    ghost Value = { BoardState × List ProcessView };

    ghost view = { λ a. (a.board, a.views.items) };

    ghost invariant = { λ a. AreViews a.board a.views.items };
}

// So many views of processes that have done nothing, at a board on which nothing was done.
fn new_views(
    alloc: Global,
    board: &Board,
    lib: &Arc<Library>,
    processes: u32,
) -> Result<Vec<View>, NoMemory>
    requires nothing { board.now.history ≡ [] }
    requires library { board.now.library ≡ arc_value lib.now }
    requires few { processes ≤ MAX_PROCESSES }
    ensures { IfOk result (λ views. AreViews board.now views.items) }
{
    histories_grow();
    views_stand();
    board.history();
    let mut views = Vec::new(alloc);
    for before in 0..processes {
        views.push(View::make(alloc, Arc::try_clone(lib)?, before + 1))?;
    }
    Ok(views)
}

impl Alone {
    /// So many processes over a library, where the initialisations of these pairs of a process and a module fail.
    pub fn make(
        alloc: Global,
        lib: &Arc<Library>,
        processes: u32,
        failing: &[(u32, u32)],
    ) -> Result<Alone, NoMemory>
        requires { processes ≤ MAX_PROCESSES }
    {
        let failing = Vec::from_slice(alloc, failing)?;
        let board = Board::make_with(alloc, Arc::try_clone(lib)?, failing)?;
        let steady = Steady::new(alloc, processes)?;
        let views = new_views(alloc, &board, lib, processes)?;
        Ok(Alone {
            board,
            views,
            steady,
        })
    }

    /// The process at place `k`, from 0, takes a step.
    pub fn act<R: Wait + AllocGlobal>(
        &mut self,
        rt: &R,
        alloc: Global,
        k: usize,
        step: Step,
    ) -> Result<(), NoMemory> {
        let command = command_of(alloc, step)?;
        match self.go_on(rt, alloc, k, &command)? {
            Some(reply) => {
                let front = self.front(k);
                self.steady.keep(k, front, command, reply)
            }
            None => Ok(()),
        }
    }

    // The process at a place carries out a command.
    fn go_on<R: Wait + AllocGlobal>(
        &mut self,
        rt: &R,
        alloc: Global,
        k: usize,
        command: &Command,
    ) -> Result<Option<Reply>, NoMemory> {
        if k >= self.views.len() {
            return Ok(None);
        }
        histories_grow();
        others_leave_alike();
        views_stand();
        let reply = carry_out(rt, alloc, &mut self.board, &mut self.views[k], command);
        self.board.history();
        reply
    }

    // How many entries of the history the process at a place was shown.
    fn front(&self, k: usize) -> u64 {
        match self.views.get(k) {
            Some(view) => view.front(),
            None => 0,
        }
    }

    /// The transcript: all that was done, and what each process was answered without an entry.
    pub fn finish(self, alloc: Global, lib: &Library) -> Result<Text, NoMemory> {
        print(alloc, lib, self.board.history(), self.steady.scripts())
    }
}
