//! The bases of what residences reach that begin.

ghost use Rattle.std.specs.Prelude.{◌≡◌, ◌<◌, All, IfOk, get_or, length, map};
ghost use Rattle.std.specs.List.{range_with_len};
ghost use Rattle.load_model.specs.Entering.{with_fresh_residences};
ghost use Rattle.load_model.specs.Memory.{bases_seen};
ghost use Rattle.load_core.specs.BoardState.{state_of};
ghost use Rattle.load_core.specs.Enters as begins;

use crate::board::Board;
use crate::residence_parts::ResidenceParts;
use load_model::Fresh;
use lx_types::{Bases, ModBases, NoMemory, Seq, SharedNumbers};
use residence_table::ResidenceTable;
use std::alloc::Global;

/// Residences that begin together, and the bases of each module of the library once they have, by the module's number. They are
/// looked up once for all that begin.
#[derive(Drop)]
pub struct Beginning<'a> {
    pub fresh: &'a [Fresh],
    pub bases: Vec<ModBases>,
}

// The bases of module `k` once these have begun.
fn bases_of(
    alloc: Global,
    table: &ResidenceTable<ResidenceParts>,
    fresh: &[Fresh],
    k: u32,
) -> Result<ModBases, NoMemory>
    ensures { IfOk result (λ own. own ≡ begins.bases_with table.now fresh.now k) }
{
    let objects = table.placement(fresh, k).bases.to_vec(alloc)?;
    Ok(ModBases {
        module: k,
        objects: SharedNumbers::make(alloc, objects)?,
    })
}

// The bases of so many modules once these have begun, by their numbers.
fn all_bases(
    alloc: Global,
    table: &ResidenceTable<ResidenceParts>,
    fresh: &[Fresh],
    count: u32,
) -> Result<Vec<ModBases>, NoMemory>
    ensures { IfOk result (λ mods. mods.items ≡ map (begins.bases_with table.now fresh.now) (range_with_len 0 count)) }
{
    let mut mods = Vec::with_capacity(alloc, count as usize)?;
    for k in 0..count {
        mods.push(bases_of(alloc, table, fresh, k)?)?;
    }
    Ok(mods)
}

// One hold more on the bases of a module.
fn held(own: &ModBases) -> Result<ModBases, NoMemory>
    ensures { IfOk result (λ same. same ≡ own.now) }
{
    Ok(ModBases {
        module: own.module,
        objects: own.objects.hold()?,
    })
}

// The bases of modules among those of all, in their order.
fn bases_among(alloc: Global, all: &[ModBases], modules: &[u32]) -> Result<Vec<ModBases>, NoMemory>
    requires { All (λ k. k < length all.now) modules.now }
    ensures { IfOk result (λ mods. mods.items ≡ map (λ k. get_or all.now k begins.nowhere) modules.now) }
{
    let mut mods = Vec::with_capacity(alloc, modules.len())?;
    for k in modules {
        mods.push(held(&all[*k as usize])?)?;
    }
    Ok(mods)
}

impl Board {
    // The bases once these have begun.
    pub fn beginning<'a>(&self, fresh: &'a [Fresh]) -> Result<Beginning<'a>, NoMemory>
        ensures fresh { IfOk result (λ with. with.fresh.now ≡ fresh.entry.now) }
        ensures bases { IfOk result (λ with. begins.AreBasesAfter self.now with.fresh.now with.bases.items) }
    {
        let bases = all_bases(self.alloc, &self.table, fresh, self.lib.len())?;
        Ok(Beginning { fresh, bases })
    }

    // The bases of what module `m` reaches, once these have begun.
    pub fn bases_after(&self, with: &Beginning<'_>, m: u32) -> Result<Bases, NoMemory>
        requires module { m < length self.now.library }
        requires bases { begins.AreBasesAfter self.now with.now.fresh.now with.now.bases.items }
        ensures { IfOk result (λ bases. bases ≡ bases_seen self.now.library (with_fresh_residences (state_of self.now) with.now.fresh.now) m) }
    {
        lx_model::order_is_reach();
        let mods = bases_among(self.alloc, &with.bases, self.lib.order(m))?;
        Ok(Bases {
            mods: Seq::from_vec(mods),
        })
    }
}
