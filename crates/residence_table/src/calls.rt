//! What an entry calls, and what is gone with it.

ghost use Rattle.std.specs.Prelude.{◌≡◌, ◌<◌, ◌-◌, ◌&&◌, ◌||◌, ◌++◌, ℕ, List, All, slice_index, IfOk, OnOk, None, Option, filter_map, length, map, option_map, option_to_list, reverse, if◌then◌else◌};
ghost use Rattle.load_model.specs.Modules.{Library, inits_each, is_library, start_of, terms_each};
ghost use Rattle.load_model.specs.State.{Eager, Process, Residence};
ghost use Rattle.lx_model.specs.Reach.{is_among};
ghost use Rattle.load_model.specs.Entering as model;
ghost use Rattle.load_model.specs.Leaving as leaving_model;
ghost use Rattle.load_model.specs.Initialising as failing_model;
ghost use Rattle.load_model.specs.Entering.{call_of, init_of, main_of};
ghost use Rattle.load_model.specs.Leaving.{term_of};
ghost use Rattle.residence_table.specs.Residences.{residences, unwritten_residences};
ghost use Rattle.residence_table.specs.Placing.{residences_with, state_with};
ghost use Rattle.residence_table.specs.Called.{IsAt, IsEnteringOf, IsFailureOf, IsLeavingOf, IsWithin};

use crate::entry::{Entering, Failure, Leaving};
use crate::failing::{before, push_up_to};
use crate::placement::Placement;
use crate::table::ResidenceTable;
use load_model::{Call, CallKind, Calls, Fresh, Gone, How, Leavers};
use lx_types::{MODULE_INIT_EACH, MODULE_TERM_EACH, NoMemory, Seq, object_base};
use mod_graph::{Library, is_among};
use std::alloc::Global;

/// The call of module `m`'s start address, where it has one and stands there.
fn start_call(lib: &Library, kind: CallKind, m: u32, at: Placement<'_>) -> Option<Call>
    requires { m < length lib.now }
    ensures { (r : Option Residence) → IsAt at.entry r → result ≡ option_map (call_of kind r m) (start_of lib.now m) }
{
    match lib.module(m).start() {
        Some((object, offset)) => Some(Call {
            kind,
            serial: at.serial,
            module: m,
            address: object_base(at.bases, object).wrapping_add(offset),
        }),
        None => None,
    }
}

/// Whether module `m` is initialised: a library that is new, or is marked for that in each process.
/// ("32-bit Linear eXecutable Module Format": "LX Header".)
fn is_initialised(lib: &Library, m: u32, is_new: bool) -> bool
    requires { m < length lib.now }
    ensures { result ≡ (is_library lib.now m && (inits_each lib.now m || is_new)) }
{
    let module = lib.module(m);
    module.is_library() && (module.flags() & MODULE_INIT_EACH != 0 || is_new)
}

/// Whether module `m` is terminated: a library that is gone, or is marked for that in each process.
fn is_terminated(lib: &Library, m: u32, is_gone: bool) -> bool
    requires { m < length lib.now }
    ensures { result ≡ (is_library lib.now m && (terms_each lib.now m || is_gone)) }
{
    let module = lib.module(m);
    module.is_library() && (module.flags() & MODULE_TERM_EACH != 0 || is_gone)
}

/// Whether a module is among those that begin.
fn is_new(fresh: &[Fresh], m: u32) -> bool
    ensures { result ≡ is_among (map (λ f. f.«module») fresh.now) m }
{
    fresh.iter().any(|new_residence| new_residence.module == m)
}

/// Adds a call, if there is one.
fn push_call(call: Option<Call>, calls: &mut Vec<Call>) -> Result<(), NoMemory>
    ensures { OnOk result (calls.new.items ≡ calls.old.items ++ option_to_list call) }
{
    if let Some(call) = call {
        calls.push(call)?;
    }
    Ok(())
}

impl<T: Drop> ResidenceTable<T> {
    /// The initialisation of module `m`, where it is called.
    fn init_call(&self, lib: &Library, fresh: &[Fresh], m: u32) -> Option<Call>
        requires { m < length lib.now }
        ensures { result ≡ init_of lib.now (state_with (residences_with self.now fresh.now)) (map (λ f. f.«module») fresh.now) m }
    {
        if is_initialised(lib, m, is_new(fresh, m)) {
            start_call(lib, CallKind::Init, m, self.placement(fresh, m))
        } else {
            None
        }
    }

    /// The termination of module `m`, where it is called.
    fn term_call(&self, lib: &Library, fresh: &[Fresh], is_gone: bool, m: u32) -> Option<Call>
        requires { m < length lib.now }
        ensures { (gone : List ℕ) → is_gone ≡ is_among gone m
            → result ≡ term_of lib.now (state_with (residences_with self.now fresh.now)) gone m }
    {
        if is_terminated(lib, m, is_gone) {
            start_call(lib, CallKind::Term, m, self.placement(fresh, m))
        } else {
            None
        }
    }

    /// Adds the initialisations of what is attached.
    fn push_inits(
        &self,
        lib: &Library,
        entering: &Entering<'_>,
        calls: &mut Vec<Call>,
    ) -> Result<(), NoMemory>
        requires { IsWithin lib.now entering.now }
        ensures { OnOk result (calls.new.items ≡ calls.old.items
            ++ filter_map (init_of lib.now (state_with (residences_with self.now entering.now.fresh.now))
            (map (λ f. f.«module») entering.now.fresh.now)) entering.now.joined.now) }
    {
        for m in entering.joined {
            push_call(self.init_call(lib, entering.fresh, *m), calls)?;
        }
        Ok(())
    }

    /// Adds the call of a program's start address.
    fn push_main(
        &self,
        lib: &Library,
        entering: &Entering<'_>,
        calls: &mut Vec<Call>,
    ) -> Result<(), NoMemory>
        requires { IsWithin lib.now entering.now }
        ensures { OnOk result (calls.new.items ≡ calls.old.items
            ++ main_of lib.now (state_with (residences_with self.now entering.now.fresh.now)) entering.now.how entering.now.«module») }
    {
        match entering.how {
            How::Start => {
                let m = entering.module;
                push_call(
                    start_call(lib, CallKind::Main, m, self.placement(entering.fresh, m)),
                    calls,
                )
            }
            How::Load => Ok(()),
        }
    }

    /// What a start or a load calls where no initialisation fails: the initialisations of the libraries that it
    /// attaches, each after those of what it imports, where they are new or are marked for each process; and last
    /// a program's start address. (Control Program reference: DosLoadModule; "32-bit Linear eXecutable Module Format":
    /// "LX Header".)
    pub fn entering_calls(
        &self,
        alloc: Global,
        lib: &Library,
        entering: &Entering<'_>,
    ) -> Result<Calls, NoMemory>
        requires { IsWithin lib.now entering.now }
        ensures { IfOk result (λ calls. (e : Eager) (pid : ℕ) → unwritten_residences e ≡ residences self.now → IsEnteringOf lib.now e pid entering.now
            → calls ≡ model.entering_calls lib.now e pid entering.now.how entering.now.«module» entering.now.fresh.now) }
    {
        let mut calls = Vec::new(alloc);
        self.push_inits(lib, entering, &mut calls)?;
        self.push_main(lib, entering, &mut calls)?;
        Ok(Seq::from_vec(calls))
    }

    /// Adds the terminations of modules, the last first, where what begins with the load is gone.
    fn push_undoing(
        &self,
        lib: &Library,
        fresh: &[Fresh],
        modules: &[u32],
        calls: &mut Vec<Call>,
    ) -> Result<(), NoMemory>
        requires { All (λ k. k < length lib.now) modules.now }
        ensures { OnOk result (calls.new.items ≡ calls.old.items
            ++ filter_map (term_of lib.now (state_with (residences_with self.now fresh.now)) (map (λ f. f.«module») fresh.now)) (reverse modules.now)) }
    {
        for m in modules.iter().rev() {
            push_call(self.term_call(lib, fresh, is_new(fresh, *m), *m), calls)?;
        }
        Ok(())
    }

    /// What a start or a load calls whose initialisation of a module fails: the calls up to that one, and then, the
    /// last first, the terminations of what was attached before it, where it was new or is marked for each process.
    pub fn failed_calls(
        &self,
        alloc: Global,
        lib: &Library,
        entering: &Entering<'_>,
        failure: &Failure<'_>,
    ) -> Result<Calls, NoMemory>
        requires { IsWithin lib.now entering.now }
        ensures { IfOk result (λ calls. (e : Eager) → unwritten_residences e ≡ residences self.now → IsEnteringOf lib.now e failure.now.pid entering.now →
            IsFailureOf lib.now e entering.now failure.now
            → calls ≡ failing_model.failed_calls lib.now e failure.now.pid entering.now.how entering.now.«module» failure.now.by entering.now.fresh.now) }
    {
        let mut calls = Vec::new(alloc);
        push_up_to(failure.pairs, failure.pid, failure.calls, &mut calls)?;
        let attached = before(entering.joined, failure.by);
        self.push_undoing(lib, entering.fresh, attached, &mut calls)?;
        Ok(Seq::from_vec(calls))
    }

    /// What a free or an exit calls: the terminations of the libraries that leave, in their order, where they are
    /// gone or are marked for each process. (Control Program reference: DosFreeModule, DosExit; "32-bit Linear
    /// eXecutable Module Format": "LX Header".)
    pub fn leaving_calls(
        &self,
        alloc: Global,
        lib: &Library,
        leaving: &Leaving<'_>,
    ) -> Result<Calls, NoMemory>
        requires { All (λ k. k < length lib.now) leaving.now.left.now }
        ensures { IfOk result (λ calls. (e : Eager) (pid : ℕ) (p : Process) → unwritten_residences e ≡ residences self.now
            → IsLeavingOf lib.now e pid p leaving.now → calls ≡ leaving_model.leaving_calls lib.now e pid p) }
    {
        let mut calls = Vec::new(alloc);
        for m in leaving.left {
            let is_gone = is_among(leaving.gone, *m);
            push_call(self.term_call(lib, &[], is_gone, *m), &mut calls)?;
        }
        Ok(Seq::from_vec(calls))
    }

    /// The residences that end with a free or an exit, in the order in which their modules leave.
    pub fn gone(&self, alloc: Global, modules: &[u32]) -> Result<Leavers, NoMemory>
        ensures { IfOk result (λ gone. (lib : Library) (e : Eager) (pid : ℕ) (p : Process) → unwritten_residences e ≡ residences self.now
            → modules.now ≡ leaving_model.gone_modules lib e pid p → gone ≡ leaving_model.gone lib e pid p) }
    {
        let mut gone = Vec::with_capacity(alloc, modules.len())?;
        for m in modules {
            gone.push(Gone {
                serial: self.placement(&[], *m).serial,
                module: *m,
            })?;
        }
        Ok(Seq::from_vec(gone))
    }
}
