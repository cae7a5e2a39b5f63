//! Where the objects stand of what a module reaches.

ghost use Rattle.std.specs.Prelude.{◌≡◌, ◌<◌, IfOk, length};
ghost use Rattle.load_model.specs.Memory as seen;
ghost use Rattle.load_model.specs.State as state;
ghost use Rattle.memory_core.specs.Brought.{standing};

use load_model::Fresh;
use lx_types::{Bases, ModBases, NoMemory, Seq, SharedNumbers};
use mod_graph::Library;
use residence_table::ResidenceTable;
use std::alloc::Global;

// The bases of module `k`, where these have begun and nothing else stands.
fn bases_of(alloc: Global, fresh: &[Fresh], k: u32) -> Result<ModBases, NoMemory>
    ensures { IfOk result (λ own. own ≡ record { «module» = k; objects = state.bases_of (state.residence_of (standing fresh.now) k) }) }
{
    let nothing: ResidenceTable<()> = ResidenceTable::new(alloc);
    let objects = nothing.placement(fresh, k).bases.to_vec(alloc)?;
    Ok(ModBases {
        module: k,
        objects: SharedNumbers::make(alloc, objects)?,
    })
}

/// The bases of all that module `m` reaches, itself among them, where these have begun and nothing else stands.
#[tactic(auto, unfolding(load_model::specs::Memory::bases_seen, load_model::specs::Modules::order_of))]
pub fn bases_seen(alloc: Global, lib: &Library, fresh: &[Fresh], m: u32) -> Result<Bases, NoMemory>
    requires { m < length lib.now }
    ensures { IfOk result (λ bases. bases ≡ seen.bases_seen lib.now (standing fresh.now) m) }
{
    let mut mods = Seq::new(alloc);
    for k in lib.order(m) {
        mods.push(bases_of(alloc, fresh, *k)?)?;
    }
    Ok(Bases { mods })
}
