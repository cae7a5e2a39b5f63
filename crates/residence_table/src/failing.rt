//! Initialisations that fail.

ghost use Rattle.std.specs.Prelude.{◌≡◌, ◌++◌, IfOk, OnOk, find, option_map};
ghost use Rattle.load_model.specs.State.{Eager, nothing_yet};
ghost use Rattle.load_model.specs.Initialising as model;
ghost use Rattle.load_model.specs.Initialising.{before_number, is_failing, up_to};

use load_model::{Call, CallKind, Fresh, Gone, Leavers};
use lx_types::{NoMemory, Seq};
use std::alloc::{AllocError, Global};

/// Whether the initialisation of a module fails in a process.
fn fails_in(pairs: &[(u32, u32)], pid: u32, m: u32) -> bool
    ensures { result ≡ model.fails_in pairs.now pid m }
{
    pairs
        .iter()
        .any(|(process, module)| *process == pid && *module == m)
}

/// Whether a call is an initialisation that fails in a process.
fn is_failing(pairs: &[(u32, u32)], pid: u32, call: &Call) -> bool
    ensures { result ≡ model.is_failing (nothing_yet pairs.now) pid call.now }
{
    match call.kind {
        CallKind::Init => fails_in(pairs, pid, call.module),
        CallKind::Term | CallKind::Main => false,
    }
}

/// The module of the first of the calls of a start or a load whose initialisation fails, where the pairs of a
/// process and a module say which do. (Control Program reference: DosLoadModule.)
pub fn failing_module(pairs: &[(u32, u32)], pid: u32, calls: &[Call]) -> Option<u32>
    ensures { (e : Eager) → e.failing ≡ pairs.now → result ≡ option_map (λ c. c.«module») (find (is_failing e pid) calls.now) }
{
    for call in calls {
        if is_failing(pairs, pid, call) {
            return Some(call.module);
        }
    }
    None
}

/// Adds the calls up to the first that fails, which is among them.
pub fn push_up_to(
    pairs: &[(u32, u32)],
    pid: u32,
    calls: &[Call],
    into: &mut Vec<Call>,
) -> Result<(), NoMemory>
    ensures { OnOk result ((e : Eager) → e.failing ≡ pairs.now → into.new.items ≡ into.old.items ++ up_to (is_failing e pid) calls.now) }
{
    for call in calls {
        into.push(*call)?;
        if is_failing(pairs, pid, call) {
            return Ok(());
        }
    }
    Ok(())
}

/// The modules before the one that failed.
pub fn before(modules: &[u32], by: u32) -> &[u32]
    ensures { result.now ≡ before_number by modules.now }
{
    for (place, m) in modules.iter().enumerate() {
        if *m == by {
            return &modules[..place];
        }
    }
    modules
}

/// A residence that ends where it began.
fn gone_from(new_residence: &Fresh) -> Gone
    ensures { result ≡ record { serial = new_residence.now.serial; «module» = new_residence.now.«module» } }
{
    Gone {
        serial: new_residence.serial,
        module: new_residence.module,
    }
}

/// The residences that end where they began, the last first.
fn gone_backwards(alloc: Global, fresh: &[Fresh]) -> Result<Vec<Gone>, AllocError>
    ensures { IfOk result (λ gone. gone.items ≡ model.gone_again fresh.now) }
{
    fresh.iter().rev().map(gone_from).collect(alloc)
}

/// What began with a load that failed ends with it, the last first.
pub fn gone_again(alloc: Global, fresh: &[Fresh]) -> Result<Leavers, NoMemory>
    ensures { IfOk result (λ gone. gone ≡ model.gone_again fresh.now) }
{
    Ok(Seq::from_vec(gone_backwards(alloc, fresh)?))
}
