//! What all processes hold.

ghost use Rattle.std.specs.Prelude.{◌≡◌, ◌<◌, ◌↔◌, true, false, All, IfOk, IsErr, OnOk, OnErr, filter, not, length, slice_index};
ghost use Rattle.load_model.specs.Modules.{Library};
ghost use Rattle.load_model.specs.State.{Eager, Failing, Process, count_of, is_among, is_reached, nothing_yet, pids, reaches, with_process};
ghost use Rattle.load_model.specs.ProcessCounts.{AreCountsOf};
ghost use Rattle.mod_refs.specs.AllCounts.{AreKept, AreCountsOfAll, HaveModule, counts_at};
ghost use Rattle.mod_refs.specs.Changes.{IsFullFor, IsGained, IsHeldBy, IsIdleFor, IsLost, with_entered, with_given_up};

use crate::changes::{CountFull, Gained, Leaving, Lost};
use crate::load_counts::LoadCounts;
use crate::one_process::{enter, joined_by, leave, left_by};
use load_model::How;
use lx_types::{MAX_PROCESSES, NoMemory};
use mod_graph::Library;
use std::alloc::Global;
use std::marker::Model;

/// What the processes 1 to 16 hold of a library, and so who reaches which module. Whether anybody reaches a
/// module is asked by looking at the counts of all 16.
pub struct Refs {
    all_counts: Vec<LoadCounts>,
}

// Dropped by a call, as lists are (`Seq`).
impl Drop for Refs {
    fn drop(self) {
        let Refs { all_counts } = self;
        drop(all_counts);
    }
}

impl Model for Refs {
    ghost use Rattle.lx_types.specs.declared.limits.TheConstants.{MAX_PROCESSES};
    ghost use Rattle.std.specs.Prelude.{List, ◌≡◌, length};
    ghost use Rattle.load_model.specs.ProcessCounts.{ProcessCounts};

    ghost Value = { List ProcessCounts };

    ghost view = { λ r. r.all_counts.items };

    ghost invariant = { λ r. length r.all_counts.items ≡ MAX_PROCESSES };
}

impl Refs {
    /// What processes hold that have done nothing yet.
    pub fn make(alloc: Global, lib: &Library) -> Result<Refs, NoMemory>
        ensures all_counts { IfOk result (λ refs. (failing : Failing) → AreCountsOfAll lib.now (nothing_yet failing) refs) }
        ensures kept { IfOk result (AreKept lib.now) }
    {
        let mut all_counts = Vec::new(alloc);
        for _ in 0..MAX_PROCESSES {
            all_counts.push(LoadCounts::new(lib.len()))?;
        }
        Ok(Refs { all_counts })
    }

    /// How many loads of module `m` a process holds.
    pub fn held(&self, pid: u32, m: u32) -> u32
        requires pid { is_among pids pid ≡ true }
        requires module { m < length (counts_at self.now pid).loads }
        ensures count { result ≡ slice_index (counts_at self.now pid).loads m }
        ensures state { (lib : Library) (e : Eager) → AreCountsOfAll lib e self.now → result ≡ count_of (e.processes pid) m }
    {
        self.counts(pid).held(m)
    }

    /// Whether a process reaches module `m` through imports of what it holds.
    pub fn reaches(&self, pid: u32, m: u32) -> bool
        requires pid { is_among pids pid ≡ true }
        requires module { m < length (counts_at self.now pid).reached }
        ensures { (lib : Library) (e : Eager) → AreCountsOfAll lib e self.now → result ≡ reaches lib (e.processes pid) m }
    {
        self.counts(pid).reaches(m)
    }

    /// Whether any process reaches module `m`, which is then resident.
    pub fn resident(&self, m: u32) -> bool
        requires { HaveModule m self.now }
        ensures { (lib : Library) (e : Eager) → AreCountsOfAll lib e self.now → result ≡ is_reached lib e m }
    {
        for pid in 1..=MAX_PROCESSES {
            if self.reaches(pid, m) {
                return true;
            }
        }
        false
    }

    /// What a start or a load of module `m` would attach (DosLoadModule). Nothing changes.
    pub fn gain(&self, alloc: Global, lib: &Library, pid: u32, m: u32) -> Result<Gained, NoMemory>
        requires kept { AreKept lib.now self.now }
        requires pid { is_among pids pid ≡ true }
        requires module { m < length lib.now }
        ensures { IfOk result (λ gained. (e : Eager) → AreCountsOfAll lib.now e self.now → IsGained lib.now e pid m gained) }
    {
        let joined = joined_by(self.counts(pid), alloc, lib, m)?;
        let fresh = self.unreached_of(alloc, &joined)?;
        Ok(Gained { joined, fresh })
    }

    /// Starts or loads module `m`, and attaches what of its order the process did not reach. It takes no
    /// memory. A process holds 65,535 loads of a module at most: one more is refused, and nothing changes.
    pub fn attach(&mut self, lib: &Library, pid: u32, m: u32, how: How) -> Result<(), CountFull>
        requires kept { AreKept lib.now self.old }
        requires pid { is_among pids pid ≡ true }
        requires module { m < length lib.now }
        requires idle { IsIdleFor how (counts_at self.old pid) }
        ensures full { IsErr result ↔ IsFullFor how m (counts_at self.old pid) }
        ensures entered { OnOk result ((e : Eager) → AreCountsOfAll lib.now e self.old → AreCountsOfAll lib.now (with_entered lib.now e pid how m) self.new) }
        ensures unchanged { OnErr result (self.new ≡ self.old) }
        ensures kept { AreKept lib.now self.new }
    {
        let place = pid as usize - 1;
        enter(&mut self.all_counts[place], lib, m, how)
    }

    /// What would leave, were this given up (DosFreeModule, DosExit). Nothing changes.
    pub fn lose(
        &self,
        alloc: Global,
        lib: &Library,
        pid: u32,
        what: Leaving,
    ) -> Result<Lost, NoMemory>
        requires kept { AreKept lib.now self.now }
        requires pid { is_among pids pid ≡ true }
        requires held { IsHeldBy what (counts_at self.now pid) }
        ensures { IfOk result (λ lost. (e : Eager) → AreCountsOfAll lib.now e self.now → IsLost lib.now e pid what lost) }
    {
        let left = left_by(self.counts(pid), alloc, lib, what)?;
        let gone = self.gone_of(alloc, pid, &left)?;
        Ok(Lost { left, gone })
    }

    /// Gives up what a process holds, which keeps attached what it still reaches. It takes no memory.
    pub fn detach(&mut self, lib: &Library, pid: u32, what: Leaving)
        requires kept { AreKept lib.now self.old }
        requires pid { is_among pids pid ≡ true }
        requires held { IsHeldBy what (counts_at self.old pid) }
        ensures left { (e : Eager) → AreCountsOfAll lib.now e self.old → AreCountsOfAll lib.now (with_given_up lib.now e pid what) self.new }
        ensures kept { AreKept lib.now self.new }
    {
        let place = pid as usize - 1;
        leave(&mut self.all_counts[place], lib, what)
    }

    /// The counts of a process.
    fn counts(&self, pid: u32) -> &LoadCounts
        requires { is_among pids pid ≡ true }
        ensures { result.now ≡ counts_at self.now pid }
    {
        &self.all_counts[pid as usize - 1]
    }

    /// Those of some modules that no process reaches.
    fn unreached_of(&self, alloc: Global, modules: &[u32]) -> Result<Vec<u32>, NoMemory>
        requires { All (λ k. HaveModule k self.now) modules.now }
        ensures { IfOk result (λ ms. (lib : Library) (e : Eager) → AreCountsOfAll lib e self.now
            → ms.items ≡ filter (λ k. not (is_reached lib e k)) modules.now) }
    {
        let mut unreached = Vec::new(alloc);
        for k in modules {
            if !self.resident(*k) {
                unreached.push(*k)?;
            }
        }
        Ok(unreached)
    }

    /// Whether a process other than this one reaches module `m`.
    fn reached_beside(&self, pid: u32, m: u32) -> bool
        requires { HaveModule m self.now }
        ensures { (lib : Library) (e : Eager) (p : Process) → AreCountsOfAll lib e self.now → reaches lib p m ≡ false
            → result ≡ is_reached lib (with_process e pid p) m }
    {
        for other in 1..=MAX_PROCESSES {
            if other != pid && self.reaches(other, m) {
                return true;
            }
        }
        false
    }

    /// Those of some modules that leave a process which no other process reaches.
    fn gone_of(&self, alloc: Global, pid: u32, left: &[u32]) -> Result<Vec<u32>, NoMemory>
        requires { All (λ k. HaveModule k self.now) left.now }
        ensures { IfOk result (λ ms. (lib : Library) (e : Eager) (p : Process) → AreCountsOfAll lib e self.now → All (λ k. reaches lib p k ≡ false) left.now
            → ms.items ≡ filter (λ k. not (is_reached lib (with_process e pid p) k)) left.now) }
    {
        let mut gone = Vec::new(alloc);
        for k in left {
            if !self.reached_beside(pid, *k) {
                gone.push(*k)?;
            }
        }
        Ok(gone)
    }
}
