//! What processes were answered without an entry.

use load_model::{Command, Reply};
use lx_types::{NoMemory, Seq};
use session_model::{Line, ScriptLines};
use std::alloc::Global;

/// The lines of so many processes.
#[derive(Drop)]
pub struct Steady {
    scripts: Vec<ScriptLines>,
}

impl Steady {
    /// No lines, of so many processes.
    pub fn new(alloc: Global, processes: u32) -> Result<Steady, NoMemory> {
        let mut scripts = Vec::new(alloc);
        for pid in 1..=processes {
            scripts.push(ScriptLines {
                pid,
                lines: Seq::new(alloc),
            })?;
        }
        Ok(Steady { scripts })
    }

    /// Keeps a reply of the process at place `k`, from 0, which was shown so many entries.
    pub fn keep(
        &mut self,
        k: usize,
        front: u64,
        command: Command,
        reply: Reply,
    ) -> Result<(), NoMemory> {
        match self.scripts.get_mut(k) {
            Some(script) => script.lines.push(Line {
                front,
                command,
                reply,
            }),
            None => Ok(()),
        }
    }

    /// All lines, by process.
    pub fn scripts(&self) -> &[ScriptLines] {
        self.scripts.as_slice()
    }
}
