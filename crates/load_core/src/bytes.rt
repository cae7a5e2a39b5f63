//! Bytes that processes write and read.

ghost use Rattle.std.specs.Prelude.{◌≡◌, ◌<◌, ℕ, [], List, true, length, slice_get, IfOk, OnOk, OnErr, MatchResult, Some};
ghost use Rattle.lx_types.specs.Object.{class_of};
ghost use Rattle.load_model.specs.Modules.{object_at};
ghost use Rattle.load_model.specs.State.{Written, Residence, pids, is_among};
ghost use Rattle.load_model.specs.declared.commands.Ask.TheVariants as asks;
ghost use Rattle.write_overlay.specs.Laid.{bytes_under};
ghost use Rattle.write_overlay.specs.Layered.{Lays};
ghost use Rattle.load_core.specs.BoardState.{MayAsk, Adds};
ghost use Rattle.load_core.specs.Shared.{shared_writes, AreLaid};
ghost use Rattle.load_core.specs.Told.{IsRead, fixed_run};
ghost use Rattle.load_core.specs.declared.residence_parts.ResidenceParts.{ResidenceParts};

use crate::board::Board;
use crate::residence_parts::{ResidenceParts, place_with};
use load_model::{Deed, Entry};
use lx_types::{Bytes, Class, NoMemory, Seq};
use mod_graph::Library;
use residence_table::ResidenceTable;
use std::alloc::Global;
use write_overlay::{Layers, Write};

// The class of an object of module `m`.
#[tactic(auto, unfolding(load_model::specs::Modules::object_at))]
fn class_at(lib: &Library, m: u32, object: u32) -> Class
    requires { m < length lib.now }
    ensures { result ≡ class_of (object_at lib.now m object) }
{
    match lib.module(m).object(object) {
        Some(head) => head.class(),
        None => Class::Code,
    }
}

// A copy of bytes.
fn copied(alloc: Global, bytes: &[u8]) -> Result<Bytes, NoMemory>
    ensures { IfOk result (λ copy. copy ≡ bytes.now) }
{
    Ok(Seq::from_vec(bytes.to_vec(alloc)?))
}

// Lays a write to an object of this class over those before it in the residence at a place, as far as all share it.
fn put_shared(
    table: &mut ResidenceTable<ResidenceParts>,
    place: usize,
    class: Class,
    write: &Write,
) -> Result<(), NoMemory>
    requires { place < length table.old }
    ensures { (s : Residence × ResidenceParts) → slice_get table.old place ≡ Some s → MatchResult result
        (λ _. AreLaid table.old table.new place s (shared_writes class write.now))
        (λ _. AreLaid table.old table.new place s []) }
{
    match class {
        Class::Shared => table.beside_mut(place).layers.put(write),
        Class::Code | Class::Private => Ok(()),
    }
}

// The bytes of an object under the writes that all share.
fn read_over(
    alloc: Global,
    layers: &Layers,
    object: u32,
    offset: u32,
    fixed: &[u8],
) -> Result<Vec<u8>, NoMemory>
    ensures length { IfOk result (λ bytes. length bytes.items ≡ length fixed.now) }
    ensures bytes { IfOk result (λ bytes. (writes : List Written) → Lays layers.now writes → bytes.items ≡ bytes_under writes object offset fixed.now) }
{
    let mut bytes = fixed.to_vec(alloc)?;
    layers.lay(object, offset, &mut bytes);
    Ok(bytes)
}

impl Board {
    /// Process `pid` writes bytes to an object of the residence of a serial number, private or shared.
    pub fn write(
        &mut self,
        pid: u32,
        serial: u64,
        object: u32,
        offset: u32,
        bytes: &[u8],
    ) -> Result<(), NoMemory>
        requires process { is_among pids pid ≡ true }
        requires may { (m : ℕ) × MayAsk self.old pid (asks.Write serial m object offset bytes.now) }
        ensures entry { OnOk result ((m : ℕ) → MayAsk self.old pid (asks.Write serial m object offset bytes.now)
            → Adds self.old self.new pid (asks.Write serial m object offset bytes.now)) }
        ensures err { OnErr result (self.new ≡ self.old) }
    {
        load_model::residences_stay();
        load_model::reached_is_fit();
        let place = place_with(&self.table, serial);
        let module = self.table.at(place).module();
        let class = class_at(&self.lib, module, object);
        let write = Write::new(object, offset, copied(self.alloc, bytes)?);
        self.history.reserve(1)?;
        put_shared(&mut self.table, place, class, &write)?;
        self.history.push_reserved(Entry {
            pid,
            deed: Deed::Write {
                serial,
                module,
                object,
                offset,
                bytes: write.into_bytes(),
            },
        });
        Ok(())
    }

    /// A debugger of process `pid` writes bytes to code of the residence of a serial number, for this process alone.
    pub fn debug(
        &mut self,
        pid: u32,
        serial: u64,
        object: u32,
        offset: u32,
        bytes: &[u8],
    ) -> Result<(), NoMemory>
        requires process { is_among pids pid ≡ true }
        requires may { (m : ℕ) × MayAsk self.old pid (asks.Debug serial m object offset bytes.now) }
        ensures entry { OnOk result ((m : ℕ) → MayAsk self.old pid (asks.Debug serial m object offset bytes.now)
            → Adds self.old self.new pid (asks.Debug serial m object offset bytes.now)) }
        ensures err { OnErr result (self.new ≡ self.old) }
    {
        load_model::residences_stay();
        let place = place_with(&self.table, serial);
        let module = self.table.at(place).module();
        let bytes = copied(self.alloc, bytes)?;
        self.history.reserve(1)?;
        self.history.push_reserved(Entry {
            pid,
            deed: Deed::Debug {
                serial,
                module,
                object,
                offset,
                bytes,
            },
        });
        Ok(())
    }

    /// Process `pid` reads bytes of a shared object of the residence of a serial number. The caller puts the bytes
    /// there that the file has, with their fixups; the writes that all share are laid over them.
    pub fn read_shared(
        &mut self,
        pid: u32,
        serial: u64,
        object: u32,
        offset: u32,
        into: &mut [u8],
    ) -> Result<(), NoMemory>
        requires process { is_among pids pid ≡ true }
        requires may { (m : ℕ) × MayAsk self.old pid (asks.Shared serial m object offset (length into.old)) }
        requires fixed { (m : ℕ) → MayAsk self.old pid (asks.Shared serial m object offset (length into.old))
            → into.old ≡ fixed_run self.old m object offset (length into.old) }
        ensures read { OnOk result ((m : ℕ) → MayAsk self.old pid (asks.Shared serial m object offset (length into.old))
            → IsRead self.old self.new pid serial m object offset into.old into.new) }
        ensures err { OnErr result ((self.new ≡ self.old) × (into.new ≡ into.old)) }
    {
        load_model::residences_stay();
        let place = place_with(&self.table, serial);
        let row = self.table.at(place);
        let module = row.module();
        let read = read_over(self.alloc, &row.beside().layers, object, offset, into)?;
        self.history.reserve(1)?;
        into.copy_from_slice(&read);
        self.history.push_reserved(Entry {
            pid,
            deed: Deed::Shared {
                serial,
                module,
                object,
                offset,
                bytes: Seq::from_vec(read),
            },
        });
        Ok(())
    }
}
