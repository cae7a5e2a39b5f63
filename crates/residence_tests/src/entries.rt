//! Entries, as text: what begins, what is called, and what is gone.

ghost use Rattle.std.specs.Prelude.{◌≡◌, ◌<◌, true, All, IfOk, length};
ghost use Rattle.load_model.specs.State.{is_among, pids};
ghost use Rattle.residence_table.specs.Called.{IsWithin};
ghost use Rattle.mod_refs.specs.AllCounts.{counts_at};
ghost use Rattle.mod_refs.specs.Changes.{IsHeldBy};
ghost use Rattle.residence_tests.specs.Sound.{FreshSound, CountsSound};
ghost use Rattle.residence_tests.specs.Kept.{KeptSound};

use crate::keeping::{
    Holding, Resident, are_within, begin, end, is_process, leave, load, nothing_held,
    nothing_resident, pass_over, place, start,
};
use load_model::{Call, CallKind, Fresh, Gone, How};
use lx_types::{Fail, NoMemory};
use mod_graph::Library;
use mod_refs::{Gained, Leaving};
use residence_table::{Entering, Failure, Leaving as Leavers, failing_module, gone_again};
use std::alloc::Global;

/// What processes hold, and what is resident.
#[derive(Drop)]
pub struct Kept {
    pub holding: Holding,
    pub resident: Resident,
}

/// A start or a load by a process.
#[derive(Clone, Copy)]
pub struct Entry {
    pub pid: u32,
    pub how: How,
    pub module: u32,
}

/// A start or a load that has its places.
#[derive(Clone, Copy)]
pub struct Placed<'a> {
    pub pid: u32,
    pub entering: Entering<'a>,
}

fn push_fresh(text: &mut String, alloc: Global, fresh: &[Fresh]) -> Result<(), NoMemory> {
    for new_residence in fresh {
        let base = new_residence.bases.as_slice().first().copied().unwrap_or(0);
        let line = format!(in alloc;
            "+{}:{}@{:x} ",
            new_residence.serial, new_residence.module, base
        )?;
        text.push_str(&line)?;
    }
    Ok(())
}

fn letter(kind: CallKind) -> &'static str {
    match kind {
        CallKind::Init => "I",
        CallKind::Term => "T",
        CallKind::Main => "M",
    }
}

fn push_calls(text: &mut String, alloc: Global, calls: &[Call]) -> Result<(), NoMemory> {
    for call in calls {
        let line = format!(in alloc;
            "{}{}:{}@{:x} ",
            letter(call.kind),
            call.serial,
            call.module,
            call.address
        )?;
        text.push_str(&line)?;
    }
    Ok(())
}

fn push_gone(text: &mut String, alloc: Global, gone: &[Gone]) -> Result<(), NoMemory> {
    for leaver in gone {
        let line = format!(in alloc; "-{}:{} ", leaver.serial, leaver.module)?;
        text.push_str(&line)?;
    }
    Ok(())
}

/// Nothing was done yet.
pub fn nothing_kept(alloc: Global, lib: &Library) -> Result<Kept, NoMemory>
    ensures { IfOk result (KeptSound lib.now) }
{
    Ok(Kept {
        holding: nothing_held(alloc, lib)?,
        resident: nothing_resident(alloc, lib),
    })
}

/// What a start or a load would attach.
fn gain(holding: &Holding, alloc: Global, lib: &Library, entry: Entry) -> Result<Gained, NoMemory>
    requires sound { CountsSound lib.now holding.now.refs holding.now.started.items }
    requires process { is_among pids entry.pid ≡ true }
    requires module { entry.«module» < length lib.now }
    ensures { IfOk result (λ gained. All (λ m. m < length lib.now) gained.joined.items) }
{
    let gained = holding.refs.gain(alloc, lib, entry.pid, entry.module)?;
    if !are_within(lib, &gained.joined) {
        return Err(NoMemory);
    }
    Ok(gained)
}

/// A start or a load that was done.
fn done(
    kept: &mut Kept,
    alloc: Global,
    lib: &Library,
    entry: Entry,
    fresh: &[Fresh],
) -> Result<(), NoMemory>
    requires sound { KeptSound lib.now kept.old }
    requires process { is_among pids entry.pid ≡ true }
    requires module { entry.«module» < length lib.now }
    requires fresh { FreshSound lib.now kept.old.resident.serials fresh.now }
    ensures { KeptSound lib.now kept.new }
{
    begin(&mut kept.resident, alloc, lib, fresh)?;
    match entry.how {
        How::Start => start(&mut kept.holding, lib, entry.pid, entry.module),
        How::Load => {
            load(&mut kept.holding, lib, entry.pid, entry.module);
            Ok(())
        }
    }
}

/// A start or a load whose initialisation of a module failed, as text.
fn failed(
    kept: &mut Kept,
    alloc: Global,
    lib: &Library,
    entering: &Entering<'_>,
    failure: &Failure<'_>,
) -> Result<String, NoMemory>
    requires sound { KeptSound lib.now kept.old }
    requires within { IsWithin lib.now entering.now }
    ensures { KeptSound lib.now kept.new }
{
    let calls = kept
        .resident
        .table
        .failed_calls(alloc, lib, entering, failure)?;
    let gone = gone_again(alloc, entering.fresh)?;
    let mut text = String::new(alloc);
    push_fresh(&mut text, alloc, entering.fresh)?;
    push_calls(&mut text, alloc, calls.as_slice())?;
    push_gone(&mut text, alloc, gone.as_slice())?;
    pass_over(&mut kept.resident, lib, entering.fresh.len())?;
    Ok(text)
}

/// A start or a load with its places, as text.
fn entered(
    kept: &mut Kept,
    alloc: Global,
    lib: &Library,
    failing: &[(u32, u32)],
    placed: &Placed<'_>,
) -> Result<String, NoMemory>
    requires sound { KeptSound lib.now kept.old }
    requires process { is_among pids placed.now.pid ≡ true }
    requires within { IsWithin lib.now placed.now.entering }
    requires fresh { FreshSound lib.now kept.old.resident.serials placed.now.entering.fresh.now }
    ensures { KeptSound lib.now kept.new }
{
    let entering = &placed.entering;
    let calls = kept.resident.table.entering_calls(alloc, lib, entering)?;
    if let Some(by) = failing_module(failing, placed.pid, calls.as_slice()) {
        let failure = Failure {
            pid: placed.pid,
            by,
            pairs: failing,
            calls: calls.as_slice(),
        };
        return failed(kept, alloc, lib, entering, &failure);
    }
    let mut text = String::new(alloc);
    push_fresh(&mut text, alloc, entering.fresh)?;
    push_calls(&mut text, alloc, calls.as_slice())?;
    let entry = Entry {
        pid: placed.pid,
        how: entering.how,
        module: entering.module,
    };
    done(kept, alloc, lib, entry, entering.fresh)?;
    Ok(text)
}

/// A start or a load, as text.
pub fn enter(
    kept: &mut Kept,
    alloc: Global,
    lib: &Library,
    failing: &[(u32, u32)],
    entry: Entry,
) -> Result<String, NoMemory>
    requires { KeptSound lib.now kept.old }
    ensures { KeptSound lib.now kept.new }
{
    if !is_process(entry.pid) {
        return Err(NoMemory);
    }
    if entry.module >= lib.len() {
        return Err(NoMemory);
    }
    let gained = gain(&kept.holding, alloc, lib, entry)?;
    match place(&kept.resident, alloc, lib, &gained.fresh) {
        Ok(fresh) => {
            let placed = Placed {
                pid: entry.pid,
                entering: Entering {
                    how: entry.how,
                    module: entry.module,
                    joined: &gained.joined,
                    fresh: fresh.as_slice(),
                },
            };
            entered(kept, alloc, lib, failing, &placed)
        }
        Err(Fail::Said(none)) => Ok(format!(in alloc; "full {}", none.of)?),
        Err(Fail::NoMemory) => Err(NoMemory),
    }
}

/// Whether a process holds what it is to give up.
fn is_held(holding: &Holding, lib: &Library, pid: u32, what: Leaving) -> bool
    requires sound { CountsSound lib.now holding.now.refs holding.now.started.items }
    requires process { is_among pids pid ≡ true }
    ensures { result ≡ true → IsHeldBy what (counts_at holding.now.refs pid) }
{
    match what {
        Leaving::One(m) => {
            if m < lib.len() {
                holding.refs.held(pid, m) > 0
            } else {
                false
            }
        }
        Leaving::All => true,
    }
}

/// A free or an exit, as text.
pub fn left(
    kept: &mut Kept,
    alloc: Global,
    lib: &Library,
    pid: u32,
    what: Leaving,
) -> Result<String, NoMemory>
    requires { KeptSound lib.now kept.old }
    ensures { KeptSound lib.now kept.new }
{
    if !is_process(pid) {
        return Err(NoMemory);
    }
    if !is_held(&kept.holding, lib, pid, what) {
        return Err(NoMemory);
    }
    let lost = kept.holding.refs.lose(alloc, lib, pid, what)?;
    if !are_within(lib, &lost.left) {
        return Err(NoMemory);
    }
    let leavers = Leavers {
        left: &lost.left,
        gone: &lost.gone,
    };
    let calls = kept.resident.table.leaving_calls(alloc, lib, &leavers)?;
    let gone = kept.resident.table.gone(alloc, &lost.gone)?;
    let mut text = String::new(alloc);
    push_calls(&mut text, alloc, calls.as_slice())?;
    push_gone(&mut text, alloc, gone.as_slice())?;
    end(&mut kept.resident, lib, &lost.gone);
    leave(&mut kept.holding, lib, pid, what);
    Ok(text)
}
