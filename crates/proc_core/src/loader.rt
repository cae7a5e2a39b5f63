//! The loader: the board in its lock.

ghost use Rattle.std.specs.Prelude.{◌≡◌, ◌≤◌, ◌<◌, ◌+◌, ◌↔◌, [], ℕ, Some, length, slice_index_or, IfOk, IsTrue};
ghost use Rattle.std.specs.Arc.{arc_value};
ghost use Rattle.lx_types.specs.declared.limits.TheConstants.{MAX_PROCESSES};
ghost use Rattle.turn_lock.specs.Passes.{AllDealt};
ghost use Rattle.proc_core.specs.declared.kept.About.{About};
ghost use Rattle.proc_core.specs.Closing.{AreMade, AreAll, AreOf};

use crate::kept::Kept;
use crate::proc::Proc;
use load_core::Board;
use load_model::{histories_grow, views_stand};
use lx_types::NoMemory;
use mod_graph::Library;
use process_view::View;
use std::alloc::Global;
use std::marker::Model;
use std::sync::Arc;
use turn_lock::{Pass, TurnLock};

/// A loader: a board that processes take turns at. Threads share it.
#[derive(Drop)]
pub struct Loader {
    pub(crate) lock: TurnLock<Kept>,
}

impl Model for Loader {
    ghost use Rattle.atomic_table.specs.Seated.{TableId};

    ghost Value = { TableId };

    ghost view = { λ l. l.lock };
}

// Whether they have the numbers from 1 on, in order.
fn are_in_order(procs: &[Proc]) -> bool
    ensures { IsTrue result ↔ ((k : ℕ) (d : _) → k < length procs.now → (slice_index_or procs.now k d).known.pid ≡ k + 1) }
{
    for (k, proc) in procs.iter().enumerate() {
        if proc.pid() as usize != k + 1 {
            return false;
        }
    }
    true
}

impl Loader {
    // Processes that have done nothing, each with its pass.
    fn deal(
        &self,
        alloc: Global,
        lib: &Arc<Library>,
        passes: Vec<Pass<Kept>>,
    ) -> Result<Vec<Proc>, NoMemory>
        requires few { length passes.items ≤ MAX_PROCESSES }
        requires dealt { (about : About) × (about.library ≡ arc_value lib.now) × AllDealt self.now (Some about) (length passes.items) passes.items }
        ensures { IfOk result (λ procs. (about : About) → about.library ≡ arc_value lib.now →
            AllDealt self.now (Some about) (length passes.items) passes.items →
            AreMade self.now about (length passes.items) procs.items) }
    {
        histories_grow();
        views_stand();
        let mut procs = Vec::new(alloc);
        for pass in passes {
            let view = View::make(alloc, Arc::try_clone(lib)?, pass.pid());
            procs.push(Proc { pass, view })?;
        }
        Ok(procs)
    }

    /// A loader of a library, with `count` processes that have done nothing, numbered from 1. No initialisation fails.
    pub fn make(
        alloc: Global,
        lib: Arc<Library>,
        count: u32,
    ) -> Result<(Loader, Vec<Proc>), NoMemory>
        requires { (1 ≤ count) × (count ≤ MAX_PROCESSES) }
        ensures { IfOk result (λ r. AreMade r.0 (record { library = arc_value lib; failing = [] }) count r.1.items) }
    {
        Loader::make_with(alloc, lib, count, Vec::new(alloc))
    }

    /// The same, where the initialisations of these pairs fail, each a process and a module.
    pub fn make_with(
        alloc: Global,
        lib: Arc<Library>,
        count: u32,
        failing: Vec<(u32, u32)>,
    ) -> Result<(Loader, Vec<Proc>), NoMemory>
        requires { (1 ≤ count) × (count ≤ MAX_PROCESSES) }
        ensures { IfOk result (λ r. AreMade r.0 (record { library = arc_value lib; failing = failing.items }) count r.1.items) }
    {
        let board = Board::make_with(alloc, Arc::try_clone(&lib)?, failing)?;
        let (lock, passes) = TurnLock::make(alloc, Kept { board }, count)?;
        let loader = Loader { lock };
        let procs = loader.deal(alloc, &lib, passes)?;
        Ok((loader, procs))
    }

    /// Whether these are all processes of the loader, in the order of their numbers.
    pub fn owns(&self, procs: &[Proc]) -> bool
        requires { AreOf self.now procs.now }
        ensures { IsTrue result ↔ AreAll procs.now }
    {
        match procs.first() {
            Some(first) => first.live() as usize == procs.len() && are_in_order(procs),
            None => false,
        }
    }
}
