//! What a start, a load, a free and an exit change in the counts of one process.

ghost use Rattle.std.specs.Prelude.{◌≡◌, ◌≢◌, ◌<◌, ◌↔◌, All, IfOk, IsErr, OnOk, OnErr, length, slice_index};
ghost use Rattle.load_model.specs.Modules.{order_of};
ghost use Rattle.load_model.specs.State.{Eager, Process};
ghost use Rattle.load_model.specs.Leaving.{freeing, keeping, left};
ghost use Rattle.load_model.specs.declared.deeds.How.TheVariants.{Load, Start};
ghost use Rattle.load_model.specs.ProcessCounts.{AreCountsOf, unreached};
ghost use Rattle.mod_refs.specs.AllCounts.{IsKept};
ghost use Rattle.mod_refs.specs.Changes.{IsIdleFor, IsFullFor, IsHeldBy, entered, given_up};

use crate::changes::{CountFull, Leaving};
use crate::count_laws::loads_are_counted;
use crate::load_counts::LoadCounts;
use load_model::How;
use lx_types::{MAX_LOADS, NoMemory};
use mod_graph::Library;
use std::alloc::Global;

/// The modules that a start or a load of module `m` attaches.
pub fn joined_by(
    counts: &LoadCounts,
    alloc: Global,
    lib: &Library,
    m: u32,
) -> Result<Vec<u32>, NoMemory>
    requires kept { IsKept lib.now counts.now }
    requires module { m < length lib.now }
    ensures joined { IfOk result (λ ms. (p : Process) → AreCountsOf lib.now p counts.now → ms.items ≡ unreached lib.now p (order_of lib.now m)) }
    ensures within { IfOk result (λ ms. All (λ k. k < length lib.now) ms.items) }
{
    lx_model::order_is_reach();
    counts.unreached(alloc, lib.order(m))
}

/// Holds module `m`, and attaches what of its order the process did not reach.
pub fn enter(counts: &mut LoadCounts, lib: &Library, m: u32, how: How) -> Result<(), CountFull>
    requires kept { IsKept lib.now counts.old }
    requires module { m < length lib.now }
    requires idle { IsIdleFor how counts.old }
    ensures full { IsErr result ↔ IsFullFor how m counts.old }
    ensures entered { OnOk result ((p : Process) → AreCountsOf lib.now p counts.old → AreCountsOf lib.now (entered lib.now how m p) counts.new) }
    ensures unchanged { OnErr result (counts.new ≡ counts.old) }
    ensures kept { IsKept lib.now counts.new }
{
    match how {
        How::Start => {
            start(counts, lib, m);
            Ok(())
        }
        How::Load => load(counts, lib, m),
    }
}

/// Starts the program `m`, of which the process has started none.
fn start(counts: &mut LoadCounts, lib: &Library, m: u32)
    requires kept { IsKept lib.now counts.old }
    requires module { m < length lib.now }
    requires idle { counts.old.started ≡ None }
    ensures entered { (p : Process) → AreCountsOf lib.now p counts.old → AreCountsOf lib.now (entered lib.now Start m p) counts.new }
    ensures kept { IsKept lib.now counts.new }
{
    let _few = lib.len();
    lx_model::order_is_reach();
    loads_are_counted();
    counts.start(lib.order(m), m);
}

/// Loads module `m` once more.
fn load(counts: &mut LoadCounts, lib: &Library, m: u32) -> Result<(), CountFull>
    requires kept { IsKept lib.now counts.old }
    requires module { m < length lib.now }
    ensures full { IsErr result ↔ (slice_index counts.old.loads m ≡ MAX_LOADS) }
    ensures entered { OnOk result ((p : Process) → AreCountsOf lib.now p counts.old → AreCountsOf lib.now (entered lib.now Load m p) counts.new) }
    ensures unchanged { OnErr result (counts.new ≡ counts.old) }
    ensures kept { IsKept lib.now counts.new }
{
    if counts.held(m) == MAX_LOADS {
        return Err(CountFull);
    }
    load_more(counts, lib, m);
    Ok(())
}

/// Loads module `m` once more, where that may be.
fn load_more(counts: &mut LoadCounts, lib: &Library, m: u32)
    requires kept { IsKept lib.now counts.old }
    requires module { m < length lib.now }
    requires few { slice_index counts.old.loads m ≢ MAX_LOADS }
    ensures entered { (p : Process) → AreCountsOf lib.now p counts.old → AreCountsOf lib.now (entered lib.now Load m p) counts.new }
    ensures kept { IsKept lib.now counts.new }
{
    let _few = lib.len();
    lx_model::order_is_reach();
    loads_are_counted();
    counts.load(lib.order(m), m);
}

/// Gives up what the process holds, and keeps attached what it still reaches.
pub fn leave(counts: &mut LoadCounts, lib: &Library, what: Leaving)
    requires kept { IsKept lib.now counts.old }
    requires held { IsHeldBy what counts.old }
    ensures left { (p : Process) (e : Eager) → AreCountsOf lib.now p counts.old → AreCountsOf lib.now (keeping lib.now e (given_up what p)) counts.new }
    ensures kept { IsKept lib.now counts.new }
{
    match what {
        Leaving::One(m) => free(counts, lib, m),
        Leaving::All => counts.exit(),
    }
}

/// Gives up one load of module `m`.
fn free(counts: &mut LoadCounts, lib: &Library, m: u32)
    requires kept { IsKept lib.now counts.old }
    requires held { 0 < slice_index counts.old.loads m }
    ensures left { (p : Process) (e : Eager) → AreCountsOf lib.now p counts.old → AreCountsOf lib.now (keeping lib.now e (freeing m p)) counts.new }
    ensures kept { IsKept lib.now counts.new }
{
    lx_model::order_is_reach();
    loads_are_counted();
    counts.free(lib.order(m), m);
}

/// The modules that the process no longer reaches once it gives that up, the last that it attached first.
pub fn left_by(
    counts: &LoadCounts,
    alloc: Global,
    lib: &Library,
    what: Leaving,
) -> Result<Vec<u32>, NoMemory>
    requires kept { IsKept lib.now counts.now }
    requires held { IsHeldBy what counts.now }
    ensures left { IfOk result (λ ms. (p : Process) → AreCountsOf lib.now p counts.now → ms.items ≡ left lib.now (given_up what p)) }
    ensures within { IfOk result (λ ms. All (λ k. k < length lib.now) ms.items) }
{
    match what {
        Leaving::One(m) => left_by_free(counts, alloc, lib, m),
        Leaving::All => counts.left_by_exit(alloc),
    }
}

/// The modules that the process no longer reaches once it gives up a load of module `m`.
fn left_by_free(
    counts: &LoadCounts,
    alloc: Global,
    lib: &Library,
    m: u32,
) -> Result<Vec<u32>, NoMemory>
    requires kept { IsKept lib.now counts.now }
    requires held { 0 < slice_index counts.now.loads m }
    ensures left { IfOk result (λ ms. (p : Process) → AreCountsOf lib.now p counts.now → ms.items ≡ left lib.now (freeing m p)) }
    ensures within { IfOk result (λ ms. All (λ k. k < length lib.now) ms.items) }
{
    lx_model::order_is_reach();
    loads_are_counted();
    counts.left_by_free(alloc, lib.order(m), m)
}
