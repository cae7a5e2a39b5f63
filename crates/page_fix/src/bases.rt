//! Where the objects of modules stand, found by the module's number.

ghost use Rattle.std.specs.Prelude.{◌≡◌, ◌<◌, ◌==◌, ℕ, find, position, option_copied};
ghost use Rattle.lx_model.specs.Fixed.{base_of};
ghost use Rattle.page_fix.specs.Found.{AreFound};

use lx_types::{Bases, MAX_MODULES_LEN, ModBases, object_base};

/// The bases of a load with the place of each module's in their list, so that a target's base is found at once.
#[derive(Clone, Copy)]
pub struct BaseIndex<'a> {
    bases: &'a Bases,
    /// By module: the place at which its bases stand first.
    places: [Option<usize>; MAX_MODULES_LEN],
    ghost found: { AreFound bases.now.mods places },
}

// The place of a module's bases.
fn place_of(mods: &[ModBases], m: u32) -> Option<usize>
    ensures { result ≡ position (λ b. b.«module» == m) mods.now }
{
    mods.iter().position(|b| b.module == m)
}

impl<'a> BaseIndex<'a> {
    /// Goes over the bases once.
    pub fn of(bases: &'a Bases) -> BaseIndex<'a>
        ensures { result.bases.now ≡ bases.now }
    {
        let mods = bases.mods.as_slice();
        let mut places = [None; MAX_MODULES_LEN];
        for place in 0..mods.len() {
            let m = mods[place].module as usize;
            if m < MAX_MODULES_LEN {
                places[m] = places[m].or(Some(place));
            }
        }
        BaseIndex { bases, places }
    }

    // The place of the bases of module `m`. No library has more modules than the table; another number is looked for.
    fn place(&self, m: u32) -> Option<usize>
        ensures { result ≡ position (λ b. b.«module» == m) self.now.bases.now.mods }
    {
        if (m as usize) < MAX_MODULES_LEN {
            self.places[m as usize]
        } else {
            place_of(self.bases.mods.as_slice(), m)
        }
    }

    // The bases of module `m`.
    #[tactic(auto, using(crate::proofs::Places::stands_there, crate::proofs::Places::found_there, crate::proofs::Places::find_by_position))]
    fn of_module(&self, m: u32) -> Option<&'a ModBases>
        ensures { option_copied result ≡ find (λ b. b.«module» == m) self.now.bases.now.mods }
    {
        let place = self.place(m)?;
        Some(&self.bases.mods.as_slice()[place])
    }

    /// The base of an object of module `m`, and 0 where these bases have none.
    pub fn base(&self, m: u32, object: u32) -> u32
        ensures { result ≡ base_of self.now.bases.now m object }
    {
        let Some(own) = self.of_module(m) else {
            return 0;
        };
        object_base(own.objects.as_slice(), object)
    }
}
