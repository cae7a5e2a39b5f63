//! Where the modules stand.

ghost use Rattle.std.specs.Prelude.{◌≡◌, IfOk, length};
ghost use Rattle.std.specs.List.{range_with_len};
ghost use Rattle.gen_model.specs.Sums as sums;
ghost use Rattle.gen_model.specs.Sums.{AreFirstPlaces};
ghost use Rattle.gen_core.specs.Linking.{AreFirstBases, IsFirstLibrary};

use gen_laws::modules_load;
use load_model::Newcomers;
use lx_types::{Bases, Fail, ModBases, NoMemory, Seq, SharedNumbers};
use mod_graph::Library;
use residence_table::ResidenceTable;
use std::alloc::Global;

// The numbers of the modules of a library.
fn numbers(alloc: Global, lib: &Library) -> Result<Vec<u32>, NoMemory>
    ensures { IfOk result (λ numbers. numbers.items ≡ range_with_len 0 (length lib.now)) }
{
    let mut numbers = Vec::new(alloc);
    for m in 0..lib.len() {
        numbers.push(m)?;
    }
    Ok(numbers)
}

// The places that the modules take in turn, where nothing else stands. There is room for each.
fn placed(alloc: Global, lib: &Library) -> Result<Newcomers, NoMemory>
    requires { IsFirstLibrary lib.now }
    ensures { IfOk result (λ fresh. AreFirstPlaces lib.now fresh) }
{
    modules_load();
    let nothing: ResidenceTable<()> = ResidenceTable::new(alloc);
    match nothing.place(alloc, lib, 0, &numbers(alloc, lib)?) {
        Ok(fresh) => Ok(fresh),
        Err(Fail::Said(_)) => unreachable!(),
        Err(Fail::NoMemory) => Err(NoMemory),
    }
}

fn bases_of(alloc: Global, fresh: Newcomers) -> Result<Bases, NoMemory>
    ensures { IfOk result (λ bases. bases ≡ sums.bases_of fresh) }
{
    let mut mods = Seq::new(alloc);
    for new_residence in fresh.into_vec() {
        mods.push(ModBases {
            module: new_residence.module,
            objects: SharedNumbers::make(alloc, new_residence.bases.into_vec())?,
        })?;
    }
    Ok(Bases { mods })
}

/// The bases of the modules: each takes its places in turn, in an arena in which nothing else stands.
pub fn bases(alloc: Global, lib: &Library) -> Result<Bases, NoMemory>
    requires { IsFirstLibrary lib.now }
    ensures { IfOk result (AreFirstBases lib.now) }
{
    let fresh = placed(alloc, lib)?;
    bases_of(alloc, fresh)
}
