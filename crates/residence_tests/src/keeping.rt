//! What processes hold, and what is resident, from one entry to the next.

ghost use Rattle.std.specs.Prelude.{◌≡◌, ◌<◌, ◌≤◌, true, All, IfOk, ◌+◌, length, map};
ghost use Rattle.lx_model.specs.Reach.{is_among};
ghost use Rattle.load_model.specs.State.{pids};
ghost use Rattle.load_model.specs.Entering.{residence_from};
ghost use Rattle.mod_refs.specs.AllCounts.{counts_at};
ghost use Rattle.mod_refs.specs.Changes.{IsHeldBy};
ghost use Rattle.residence_table.specs.Residences.{residences};
ghost use Rattle.residence_tests.specs.Sound.{AllSound, FreshSound, CountsSound};

use load_model::{Fresh, How, Newcomers};
use lx_types::{Fail, NoMemory};
use mod_graph::{Library, is_among};
use mod_refs::{Leaving, Refs};
use residence_table::{NoRoom, ResidenceRow, ResidenceTable};
use std::alloc::Global;

/// What processes hold, and which of them started a program.
#[derive(Drop)]
pub struct Holding {
    pub refs: Refs,
    pub started: Vec<u32>,
}

/// What is resident, and how many serial numbers were given.
#[derive(Drop)]
pub struct Resident {
    pub table: ResidenceTable<()>,
    pub serials: u64,
}

/// Whether modules are those of the library.
pub fn are_within(lib: &Library, modules: &[u32]) -> bool
    ensures { result ≡ true → All (λ m. m < length lib.now) modules.now }
{
    let count = lib.len();
    for m in modules {
        if *m >= count {
            return false;
        }
    }
    true
}

/// Whether a process has a number from 1 to 16.
pub fn is_process(pid: u32) -> bool
    ensures { result ≡ true → is_among pids pid ≡ true }
{
    1 <= pid && pid <= 16
}

/// Nobody holds anything.
pub fn nothing_held(alloc: Global, lib: &Library) -> Result<Holding, NoMemory>
    ensures { IfOk result (λ holding. CountsSound lib.now holding.refs holding.started.items) }
{
    Ok(Holding {
        refs: Refs::make(alloc, lib)?,
        started: Vec::new(alloc),
    })
}

/// Nothing is resident.
pub fn nothing_resident(alloc: Global, lib: &Library) -> Resident
    ensures { AllSound lib.now (residences result.table) 0 result.serials }
{
    let _count = lib.len();
    Resident {
        table: ResidenceTable::new(alloc),
        serials: 0,
    }
}

/// Loads module `m`.
pub fn load(holding: &mut Holding, lib: &Library, pid: u32, m: u32)
    requires sound { CountsSound lib.now holding.old.refs holding.old.started.items }
    requires process { is_among pids pid ≡ true }
    requires module { m < length lib.now }
    ensures { CountsSound lib.now holding.new.refs holding.new.started.items }
{
    let _full = holding.refs.attach(lib, pid, m, How::Load);
}

/// Starts program `m`, where the process has started none.
pub fn start(holding: &mut Holding, lib: &Library, pid: u32, m: u32) -> Result<(), NoMemory>
    requires sound { CountsSound lib.now holding.old.refs holding.old.started.items }
    requires process { is_among pids pid ≡ true }
    requires module { m < length lib.now }
    ensures { CountsSound lib.now holding.new.refs holding.new.started.items }
{
    if !is_among(&holding.started, pid) {
        holding.started.push(pid)?;
        let _full = holding.refs.attach(lib, pid, m, How::Start);
    }
    Ok(())
}

/// Gives up what a process holds.
pub fn leave(holding: &mut Holding, lib: &Library, pid: u32, what: Leaving)
    requires sound { CountsSound lib.now holding.old.refs holding.old.started.items }
    requires process { is_among pids pid ≡ true }
    requires held { IsHeldBy what (counts_at holding.old.refs pid) }
    ensures { CountsSound lib.now holding.new.refs holding.new.started.items }
{
    holding.refs.detach(lib, pid, what);
}

/// Where the residences of new modules are to stand. Only so many are tried here.
pub fn place(
    resident: &Resident,
    alloc: Global,
    lib: &Library,
    modules: &[u32],
) -> Result<Newcomers, Fail<NoRoom>>
    requires { AllSound lib.now (residences resident.now.table) 0 resident.now.serials }
    ensures { IfOk result (FreshSound lib.now resident.now.serials) }
{
    if modules.len() > 64 {
        return Err(Fail::NoMemory);
    }
    if resident.serials > 1_000_000 {
        return Err(Fail::NoMemory);
    }
    if !are_within(lib, modules) {
        return Err(Fail::NoMemory);
    }
    resident.table.place(alloc, lib, resident.serials, modules)
}

/// The residences that begin, with nothing beside them.
fn rows_of(alloc: Global, fresh: &[Fresh]) -> Result<Vec<ResidenceRow<()>>, NoMemory>
    ensures { IfOk result (λ table. residences table.items ≡ map residence_from fresh.now) }
{
    let mut table = Vec::new(alloc);
    for new_residence in fresh {
        table.push(ResidenceRow::begun(alloc, new_residence, ())?)?;
    }
    Ok(table)
}

/// Residences begin.
pub fn begin(
    resident: &mut Resident,
    alloc: Global,
    lib: &Library,
    fresh: &[Fresh],
) -> Result<(), NoMemory>
    requires sound { AllSound lib.now (residences resident.old.table) 0 resident.old.serials }
    requires fresh { FreshSound lib.now resident.old.serials fresh.now }
    ensures { AllSound lib.now (residences resident.new.table) 0 resident.new.serials }
{
    let _count = lib.len();
    let new_residences = rows_of(alloc, fresh)?;
    let serials = given(resident.serials, fresh.len())?;
    resident.table.begin(new_residences)?;
    resident.serials = serials;
    Ok(())
}

/// So many serial numbers more.
fn given(serials: u64, count: usize) -> Result<u64, NoMemory>
    ensures { IfOk result (λ sum. sum ≡ serials + count) }
{
    serials.checked_add(count as u64).ok_or(NoMemory)
}

/// Serial numbers stay given, though nothing begins.
pub fn pass_over(resident: &mut Resident, lib: &Library, count: usize) -> Result<(), NoMemory>
    requires { AllSound lib.now (residences resident.old.table) 0 resident.old.serials }
    ensures { AllSound lib.now (residences resident.new.table) 0 resident.new.serials }
{
    let _count = lib.len();
    resident.serials = given(resident.serials, count)?;
    Ok(())
}

/// The residences of modules end.
pub fn end(resident: &mut Resident, lib: &Library, gone: &[u32])
    requires { AllSound lib.now (residences resident.old.table) 0 resident.old.serials }
    ensures { AllSound lib.now (residences resident.new.table) 0 resident.new.serials }
{
    let _count = lib.len();
    resident.table.end(gone);
}
