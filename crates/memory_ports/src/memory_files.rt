//! Files in memory, of which chosen loads and saves fail.
ghost use Rattle.std.specs.Prelude.{◌≡◌, ◌≢◌, ◌≤◌, ◌↔◌, ◌++◌, ◌∷◌, [], List, ℕ, length, Some, IfOk, OnOk, IsErrOf, option_map};
ghost use Rattle.std.specs.List.{position};
ghost use Rattle.lx_ports.specs.Calls.{load, save, load_answer};
ghost use Rattle.lx_ports.specs.Files.{after_call, IsLoadOf, IsSaved, KeepsOthers};
ghost use Rattle.memory_ports.specs.Names.{contents_in, is_named};

use lx_ports::{Files, LoadFault, Log, Note, SaveFault};
use std::alloc::{AllocError, Global};

/// Files in memory. The loads and the saves that are to fail are given by their numbers, each counted from 1.
#[derive(Drop)]
pub struct MemFiles {
    alloc: Global,
    entries: Vec<(String, Vec<u8>)>,
    failing_loads: Vec<u64>,
    failing_saves: Vec<u64>,
    loads: u64,
    saves: u64,
    log: Log,
}

impl MemFiles {
    ghost use Rattle.memory_ports.specs.Memory.{contents_of, IsPlanned};

    /// Files of these names. Of two entries of one name the first counts. No call has been made yet.
    pub fn of(
        alloc: Global,
        files: Vec<(String, Vec<u8>)>,
        failing_loads: Vec<u64>,
        failing_saves: Vec<u64>,
    ) -> MemFiles
        ensures files { contents_of result ≡ contents_in files.items }
        ensures planned { IsPlanned result failing_loads.items failing_saves.items }
        ensures calls { (⟦<MemFiles as Files>⟧.state result).calls ≡ [] }
    {
        MemFiles {
            alloc,
            entries: files,
            failing_loads,
            failing_saves,
            loads: 0,
            saves: 0,
            log: Log::new(),
        }
    }

    /// The bytes under this name.
    pub fn get(&self, name: &str) -> Option<&[u8]>
        ensures { option_map (λ bytes. bytes.now) result ≡ contents_of self.now name.now }
    {
        find(&self.entries, name)
    }
}

// The place of the first entry of that name.
fn place_of(entries: &[(String, Vec<u8>)], name: &str) -> Option<usize>
    ensures { result ≡ position (is_named name.now) entries.now }
{
    entries.iter().position(|(entry, _)| name == entry.as_str())
}

fn find<'a>(entries: &'a [(String, Vec<u8>)], name: &str) -> Option<&'a [u8]>
    ensures { option_map (λ bytes. bytes.now) result ≡ contents_in entries.now name.now }
{
    let place = place_of(entries, name)?;
    Some(&entries[place].1)
}

impl MemFiles {
    ghost use Rattle.memory_ports.specs.Memory.{contents_of, LoadIsToFail};

    // The answer to the next load.
    fn next_answer(&self, alloc: Global, name: &str, max: u32) -> Result<Vec<u8>, LoadFault>
        ensures planned { IsErrOf result LoadFault.Failed ↔ LoadIsToFail self.now }
        ensures answer { IsLoadOf (contents_of self.now name.now) max (load_answer result) }
    {
        if self.failing_loads.contains(&self.loads.saturating_add(1)) {
            return Err(LoadFault::Failed);
        }
        let Some(bytes) = find(&self.entries, name) else {
            return Err(LoadFault::Absent);
        };
        if bytes.len() > max as usize {
            return Err(LoadFault::TooLong);
        }
        Ok(bytes.to_vec(alloc)?)
    }
}

impl Files for MemFiles {
    ghost use Rattle.memory_ports.specs.Memory.{contents_of, LoadIsToFail, SaveIsToFail, IsOneLoadLater, IsOneSaveLater};

    ghost state = { λ files. record { contents = Some (contents_of files); calls = files.log.calls } };

    fn load(&mut self, alloc: Global, name: &str, max: u32) -> Result<Vec<u8>, LoadFault>
        ensures planned { IsErrOf result LoadFault.Failed ↔ LoadIsToFail self.old }
        ensures numbered { IsOneLoadLater self.old self.new }

        ensures answer { IsLoadOf (contents_of self.old name.now) max (load_answer result) }
        ensures limit { IfOk result (λ bytes. length bytes.items ≤ max) }
        ensures call { ⟦<MemFiles as Files>⟧.state self.new
            ≡ after_call (⟦<MemFiles as Files>⟧.state self.old) (load name.now (load_answer result)) }
    {
        let answer = self.next_answer(alloc, name, max);
        self.loads = self.loads.saturating_add(1);
        self.log = self.log.and(&Note::Load {
            name,
            answer: &answer,
        });
        answer
    }

    fn save(&mut self, name: &str, bytes: &[u8]) -> Result<(), SaveFault>
        ensures planned { SaveIsToFail self.old → IsErrOf result SaveFault.Failed }
        ensures numbered { IsOneSaveLater self.old self.new }

        ensures saved { OnOk result (IsSaved (⟦<MemFiles as Files>⟧.state self.old).contents
            (⟦<MemFiles as Files>⟧.state self.new).contents name.now bytes.now) }
        ensures others { KeepsOthers (⟦<MemFiles as Files>⟧.state self.old).contents
            (⟦<MemFiles as Files>⟧.state self.new).contents name.now }
        ensures call { (⟦<MemFiles as Files>⟧.state self.new).calls
            ≡ (⟦<MemFiles as Files>⟧.state self.old).calls ++ save name.now bytes.now result ∷ [] }
    {
        self.saves = self.saves.saturating_add(1);
        let fails = self.failing_saves.contains(&self.saves);
        let answer = if fails || put(self.alloc, &mut self.entries, name, bytes).is_err() {
            Err(SaveFault::Failed)
        } else {
            Ok(())
        };
        self.log = self.log.and(&Note::Save {
            name,
            bytes,
            answer: &answer,
        });
        answer
    }
}

// Puts a copy of the bytes under the name.
fn put(
    alloc: Global,
    entries: &mut Vec<(String, Vec<u8>)>,
    name: &str,
    bytes: &[u8],
) -> Result<(), AllocError>
    ensures saved { OnOk result (contents_in entries.new.items name.now ≡ Some bytes.now) }
    ensures others { (other : List ℕ) → other ≢ name.now
        → contents_in entries.new.items other ≡ contents_in entries.old.items other }
{
    let copy = bytes.to_vec(alloc)?;
    match place_of(entries, name) {
        Some(place) => entries[place].1 = copy,
        None => entries.push((name.to_string(alloc)?, copy))?,
    }
    Ok(())
}
