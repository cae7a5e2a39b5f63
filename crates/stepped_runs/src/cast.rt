//! A loader with its processes.

ghost use Rattle.std.specs.Prelude.{◌≡◌, ◌≤◌, length};
ghost use Rattle.lx_types.specs.declared.limits.TheConstants.{MAX_PROCESSES};
ghost use Rattle.proc_core.specs.Closing.{AreOf};

use crate::answers::answer;
use crate::steady::Steady;
use crate::steps::{Step, command_of};
use load_model::{Command, Reply};
use lx_types::{NoMemory, Seq};
use mod_graph::Library;
use proc_core::{Loader, Proc};
use session_text::{Text, print};
use std::alloc::Global;
use std::sync::{Arc, Wait};

/// A loader with its processes, and what each was answered without an entry.
#[derive(Drop)]
pub struct Cast {
    loader: Loader,
    procs: Vec<Proc>,
    steady: Steady,
    ghost own: { AreOf loader procs.items },
}

impl Cast {
    /// So many processes over a library, where the initialisations of these pairs of a process and a module fail.
    pub fn make(
        alloc: Global,
        lib: &Arc<Library>,
        processes: u32,
        failing: &[(u32, u32)],
    ) -> Result<Cast, NoMemory>
        requires { (1 ≤ processes) × (processes ≤ MAX_PROCESSES) }
    {
        let failing = Vec::from_slice(alloc, failing)?;
        let (loader, procs) = Loader::make_with(alloc, Arc::try_clone(lib)?, processes, failing)?;
        let steady = Steady::new(alloc, processes)?;
        Ok(Cast {
            loader,
            procs,
            steady,
        })
    }

    /// The process at place `k`, from 0, carries out a command, and gives the reply where it has no entry of the history.
    pub fn carry_out<R: Wait>(
        &mut self,
        rt: &R,
        alloc: Global,
        k: usize,
        command: &Command,
    ) -> Result<Option<Reply>, NoMemory> {
        if k >= self.procs.len() {
            return Ok(None);
        }
        answer(rt, alloc, &self.loader, &mut self.procs[k], command)
    }

    /// The process at place `k`, from 0.
    pub fn process(&self, k: usize) -> Option<&Proc> {
        self.procs.get(k)
    }

    // How many entries of the history the process at a place was shown.
    fn front(&self, k: usize) -> u64 {
        match self.procs.get(k) {
            Some(proc) => proc.front(),
            None => 0,
        }
    }

    /// The process at place `k`, from 0, takes a step.
    pub fn act<R: Wait>(
        &mut self,
        rt: &R,
        alloc: Global,
        k: usize,
        step: Step,
    ) -> Result<(), NoMemory> {
        let command = command_of(alloc, step)?;
        match self.carry_out(rt, alloc, k, &command)? {
            Some(reply) => {
                let front = self.front(k);
                self.steady.keep(k, front, command, reply)
            }
            None => Ok(()),
        }
    }

    /// The transcript: all that was done, and what each process was answered without an entry.
    pub fn finish(self, alloc: Global, lib: &Library) -> Result<Text, NoMemory> {
        let Cast {
            loader,
            procs,
            steady,
        } = self;
        if !loader.owns(&procs) {
            return Ok(Seq::new(alloc));
        }
        let closed = loader.close(procs);
        print(alloc, lib, closed.history(), steady.scripts())
    }
}
