//! Where the objects of modules stand.

ghost use Rattle.std.specs.Prelude.{◌≡◌, ◌-◌, ◌==◌, find, option_copied, slice_index};
ghost use Rattle.lx_types.specs.Bases.{base_of};

use crate::{Seq, SharedNumbers};

/// The bases of a module's objects, in order. All that reach the module hold the same list.
pub struct ModBases {
    /// The module's number in its library.
    pub module: u32,
    pub objects: SharedNumbers,
}

/// The bases of each module that a module reaches, itself among them.
pub struct Bases {
    pub mods: Seq<ModBases>,
}

// Dropped by a call, as lists are (`Seq`).
impl Drop for ModBases {
    fn drop(self) {
        let ModBases { module: _, objects } = self;
        drop(objects);
    }
}

impl Drop for Bases {
    fn drop(self) {
        let Bases { mods } = self;
        drop(mods);
    }
}

/// The base of an object among those of its module, by its number from 1; 0 where there is none.
pub fn object_base(bases: &[u32], object: u32) -> u32
    ensures { result ≡ slice_index bases.now (object - 1) }
{
    match bases.get(object.saturating_sub(1) as usize) {
        Some(base) => *base,
        None => 0,
    }
}

impl Bases {
    // The bases of module `m`.
    fn of_module(&self, m: u32) -> Option<&ModBases>
        ensures { option_copied result ≡ find (λ b. b.«module» == m) self.now.mods }
    {
        self.mods.as_slice().iter().find(|b| b.module == m)
    }

    /// The base of an object of module `m`, by its number from 1; 0 where these bases have none. It looks at one
    /// module after the other.
    pub fn base(&self, m: u32, object: u32) -> u32
        ensures { result ≡ base_of self.now m object }
    {
        match self.of_module(m) {
            Some(own) => object_base(own.objects.as_slice(), object),
            None => 0,
        }
    }
}
