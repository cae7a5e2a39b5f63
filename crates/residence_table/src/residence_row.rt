//! A row of the table: a residence with what its holder keeps beside it.

ghost use Rattle.std.specs.Prelude.{◌≡◌, IfOk};
ghost use Rattle.std.specs.Borrow.{sem};
ghost use Rattle.load_model.specs.Entering.{residence_from};

use load_model::Fresh;
use lx_types::{NoMemory, Numbers, Seq};
use std::alloc::Global;
use std::marker::Model;

/// A residence, of a module in memory: its serial number, the module, and the bases of its objects. Beside it stands
/// what its holder keeps of it, what was written to its shared objects among that: a row is of a residence to
/// which nothing was written.
pub struct ResidenceRow<T> {
    serial: u64,
    module: u32,
    bases: Numbers,
    beside: T,
}

// Dropped by a call, as lists are (`Seq`).
impl<T: Drop> Drop for ResidenceRow<T> {
    fn drop(self) {
        let ResidenceRow {
            serial: _,
            module: _,
            bases,
            beside,
        } = self;
        drop(bases);
        drop(beside);
    }
}

impl<T> Model for ResidenceRow<T> {
    ghost use Rattle.std.specs.Prelude.{[]};
    ghost use Rattle.load_model.specs.State.{Residence};

    ghost Value = { Residence × T };

    ghost view = { λ s. (record { serial = s.serial; «module» = s.«module»; bases = s.bases; writes = [] }, s.beside) };
}

impl<T: Drop> ResidenceRow<T> {
    ghost use Rattle.residence_table.specs.Lending.{lends_beside};

    /// The residence that begins.
    pub fn begun(alloc: Global, fresh: &Fresh, beside: T) -> Result<ResidenceRow<T>, NoMemory>
        ensures { IfOk result (λ row. row ≡ (residence_from fresh.now, beside)) }
    {
        Ok(ResidenceRow {
            serial: fresh.serial,
            module: fresh.module,
            bases: Seq::from_vec(fresh.bases.as_slice().to_vec(alloc)?),
            beside,
        })
    }

    /// The serial number.
    pub fn serial(&self) -> u64
        ensures { result ≡ self.now.0.serial }
    {
        self.serial
    }

    /// What is kept beside the residence.
    pub fn beside(&self) -> &T
        ensures { result.now ≡ self.now.1 }
    {
        &self.beside
    }

    /// What is kept beside the residence.
    pub fn beside_mut(&mut self) -> &mut T
        ensures* writes_back { sem 𝓛 (lends_beside T.row self.entry result) }
        ensures value { result.now ≡ self.old.1 }
    {
        &mut self.beside
    }
}

impl<T> ResidenceRow<T> {
    /// The module.
    pub fn module(&self) -> u32
        ensures { result ≡ self.now.0.«module» }
    {
        self.module
    }

    /// The bases of the module's objects, in their order.
    pub fn bases(&self) -> &Numbers
        ensures { result.now ≡ self.now.0.bases }
    {
        &self.bases
    }
}
