//! How often one process has loaded each module, and what it reaches by that.

ghost use Rattle.std.specs.Prelude.{◌≡◌, ◌≤◌, ◌<◌, ◌-◌, ◌^◌, All, IfOk, None, length, slice_index};
ghost use Rattle.lx_types.specs.declared.limits.TheConstants.{MAX_LOADS, MAX_MODULES};
ghost use Rattle.load_model.specs.Modules.{Library, order_of};
ghost use Rattle.load_model.specs.State.{Eager, Process, count_of, new_process, reaches};
ghost use Rattle.load_model.specs.Entering.{holding, attaching};
ghost use Rattle.load_model.specs.Leaving.{exiting, freeing, keeping, left};
ghost use Rattle.load_model.specs.declared.deeds.How.TheVariants.{Load, Start};
ghost use Rattle.load_model.specs.ProcessCounts.{AreCountsOf, unreached};
ghost use Rattle.mod_refs.specs.Counts.{AreApart};

use crate::counting::{
    Modules, add_one, copied, count_in, count_out, keep_counted, take_one, uncounted, zeros,
};
use arrayvec::ArrayVec;
use lx_types::NoMemory;
use std::alloc::Global;
use std::marker::Model;

/// What one process has loaded of a library of up to 64 modules: the program that it started, how many loads
/// of each module it holds, how many of its roots (its program and each load) reach each module through
/// imports, and the modules that it has attached, in the order in which it did. It takes no memory of
/// its own.
pub struct LoadCounts {
    started: Option<u32>,
    loads: Modules,
    reached: Modules,
    attached: Modules,
}

// Dropped by a call, as lists are (`Seq`).
impl Drop for LoadCounts {
    fn drop(self) {
        let LoadCounts {
            started: _,
            loads,
            reached,
            attached,
        } = self;
        drop(loads);
        drop(reached);
        drop(attached);
    }
}

impl Model for LoadCounts {
    ghost use Rattle.load_model.specs.ProcessCounts.{ProcessCounts};
    ghost use Rattle.mod_refs.specs.LoadCounts.{counts_in, Keeps};

    ghost Value = { ProcessCounts };

    ghost view = { counts_in };

    ghost invariant = { Keeps };
}

impl LoadCounts {
    /// What a process holds that has done nothing yet.
    pub fn new(modules: u32) -> LoadCounts
        requires { modules ≤ MAX_MODULES }
        ensures { (lib : Library) → length lib ≡ modules → AreCountsOf lib new_process result }
    {
        LoadCounts {
            started: None,
            loads: zeros(modules),
            reached: zeros(modules),
            attached: ArrayVec::new(),
        }
    }

    /// The program that the process started.
    pub fn started(&self) -> Option<u32>
        ensures { result ≡ self.now.started }
    {
        self.started
    }

    /// How many loads of module `m` the process holds. More than 65,535 it must not hold.
    pub fn held(&self, m: u32) -> u32
        requires { m < length self.now.loads }
        ensures count { result ≡ slice_index self.now.loads m }
        ensures counts { (lib : Library) (p : Process) → AreCountsOf lib p self.now → result ≡ count_of p m }
    {
        self.loads[m as usize]
    }

    /// Whether the process reaches module `m`.
    pub fn reaches(&self, m: u32) -> bool
        requires { m < length self.now.reached }
        ensures { (lib : Library) (p : Process) → AreCountsOf lib p self.now → result ≡ reaches lib p m }
    {
        self.reached[m as usize] > 0
    }

    /// Those modules of an order that the process does not reach, in the order: what a start or a load
    /// of its last module would attach.
    pub fn unreached(&self, alloc: Global, order: &[u32]) -> Result<Vec<u32>, NoMemory>
        requires { All (λ k. k < length self.now.reached) order.now }
        ensures { IfOk result (λ ms. (lib : Library) (p : Process) → AreCountsOf lib p self.now → ms.items ≡ unreached lib p order.now) }
    {
        Ok(uncounted(alloc, order, self.reached.as_slice())?)
    }

    /// Holds one load more of module `m`, whose order this is (DosLoadModule), and attaches what of the
    /// order the process did not reach.
    pub fn load(&mut self, order: &[u32], m: u32)
        requires module { m < length self.old.loads }
        requires few { slice_index self.old.loads m < MAX_LOADS }
        requires within { All (λ k. k < length self.old.reached) order.now }
        requires once { AreApart order.now }
        requires small { All (λ k. slice_index self.old.reached k < 2 ^ 32 - 1) order.now }
        ensures { (lib : Library) (p : Process) → AreCountsOf lib p self.old → order.now ≡ order_of lib m
            → AreCountsOf lib (holding Load m (attaching (unreached lib p order.now) p)) self.new }
    {
        count_in(order, &mut self.reached, &mut self.attached);
        add_one(m, &mut self.loads);
    }

    /// Starts the program `m`, whose order this is (DosExecPgm), and attaches what of the order the
    /// process did not reach.
    pub fn start(&mut self, order: &[u32], m: u32)
        requires idle { self.old.started ≡ None }
        requires within { All (λ k. k < length self.old.reached) order.now }
        requires once { AreApart order.now }
        requires small { All (λ k. slice_index self.old.reached k < 2 ^ 32 - 1) order.now }
        ensures { (lib : Library) (p : Process) → AreCountsOf lib p self.old → order.now ≡ order_of lib m
            → AreCountsOf lib (holding Start m (attaching (unreached lib p order.now) p)) self.new }
    {
        count_in(order, &mut self.reached, &mut self.attached);
        self.started = Some(m);
    }

    /// What the process no longer reaches once it gives up a load of module `m`, whose order this is
    /// (DosFreeModule): the last that it attached comes first.
    pub fn left_by_free(&self, alloc: Global, order: &[u32], m: u32) -> Result<Vec<u32>, NoMemory>
        requires held { 0 < slice_index self.now.loads m }
        requires counted { All (λ k. 0 < slice_index self.now.reached k) order.now }
        requires once { AreApart order.now }
        ensures { IfOk result (λ ms. (lib : Library) (p : Process) → AreCountsOf lib p self.now → order.now ≡ order_of lib m
            → ms.items ≡ left lib (freeing m p)) }
    {
        let mut reached = copied(self.reached.as_slice());
        count_out(order, &mut reached);
        let mut left = uncounted(alloc, self.attached.as_slice(), reached.as_slice())?;
        left.reverse();
        Ok(left)
    }

    /// Gives up a load of module `m`, whose order this is (DosFreeModule). What the process still reaches
    /// stays attached.
    pub fn free(&mut self, order: &[u32], m: u32)
        requires held { 0 < slice_index self.old.loads m }
        requires counted { All (λ k. 0 < slice_index self.old.reached k) order.now }
        requires once { AreApart order.now }
        ensures { (lib : Library) (p : Process) (e : Eager) → AreCountsOf lib p self.old → order.now ≡ order_of lib m
            → AreCountsOf lib (keeping lib e (freeing m p)) self.new }
    {
        count_out(order, &mut self.reached);
        keep_counted(self.reached.as_slice(), &mut self.attached);
        take_one(m, &mut self.loads);
    }

    /// What the process no longer reaches once it ends: all that it attached, the last first.
    pub fn left_by_exit(&self, alloc: Global) -> Result<Vec<u32>, NoMemory>
        ensures { IfOk result (λ ms. (lib : Library) (p : Process) → AreCountsOf lib p self.now → ms.items ≡ left lib (exiting p)) }
    {
        let mut left = self.attached.as_slice().to_vec(alloc)?;
        left.reverse();
        Ok(left)
    }

    /// Gives up the program and all loads (DosExit).
    pub fn exit(&mut self)
        ensures { (lib : Library) (p : Process) (e : Eager) → AreCountsOf lib p self.old → AreCountsOf lib (keeping lib e (exiting p)) self.new }
    {
        *self = LoadCounts::new(self.loads.len() as u32);
    }
}
