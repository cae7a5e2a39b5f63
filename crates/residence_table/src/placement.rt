//! Where a module stands.

ghost use Rattle.std.specs.Prelude.{◌≡◌, ◌==◌, find, option_copied, option_map};
ghost use Rattle.load_model.specs.State.{Eager, residence_of};
ghost use Rattle.load_model.specs.Entering.{residence_from, with_fresh_residences};
ghost use Rattle.residence_table.specs.Residences.{residences, unwritten_residences};
ghost use Rattle.residence_table.specs.Placing.{residences_with, state_with};
ghost use Rattle.residence_table.specs.Called.{IsAt};

use crate::table::ResidenceTable;
use load_model::Fresh;

/// Where a module stands: the serial number of its residence, and the bases of its objects. They are 0 and
/// none where it is not resident.
#[derive(Clone, Copy)]
pub struct Placement<'a> {
    pub serial: u64,
    pub bases: &'a [u32],
}

/// The residence of module `m` that begins.
fn new_residence(fresh: &[Fresh], m: u32) -> Option<&Fresh>
    ensures { option_copied result ≡ find (λ f. f.«module» == m) fresh.now }
{
    fresh.iter().find(|new_residence| new_residence.module == m)
}

/// Where module `m` is to stand.
fn beginning(fresh: &[Fresh], m: u32) -> Placement<'_>
    ensures { IsAt result (option_map residence_from (find (λ f. f.«module» == m) fresh.now)) }
{
    match new_residence(fresh, m) {
        Some(new_residence) => Placement {
            serial: new_residence.serial,
            bases: new_residence.bases.as_slice(),
        },
        None => Placement {
            serial: 0,
            bases: &[],
        },
    }
}

impl<T: Drop> ResidenceTable<T> {
    /// Where module `m` stands once these have begun.
    pub fn placement<'a>(&'a self, fresh: &'a [Fresh], m: u32) -> Placement<'a>
        ensures list { IsAt result (residence_of (state_with (residences_with self.now fresh.now)) m) }
        ensures state { (e : Eager) → unwritten_residences e ≡ residences self.now → IsAt result (residence_of (with_fresh_residences e fresh.now) m) }
    {
        self.found(fresh, m)
    }

    /// Where module `m` is found, among those that stand and then among those that begin.
    fn found<'a>(&'a self, fresh: &'a [Fresh], m: u32) -> Placement<'a>
        ensures { IsAt result (residence_of (state_with (residences_with self.now fresh.now)) m) }
    {
        match self.find(m) {
            Some(row) => Placement {
                serial: row.serial(),
                bases: row.bases().as_slice(),
            },
            None => beginning(fresh, m),
        }
    }
}
