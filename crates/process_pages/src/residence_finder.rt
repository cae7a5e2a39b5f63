//! Where the residence of each module stands among those that a process reaches, found by a look in an array.

ghost use Rattle.std.specs.Prelude.{◌≡◌, ◌==◌, ◌++◌, ◌∷◌, [], ℕ, List, Some, length, position, slice_index_or};
ghost use Rattle.page_frames.specs.Residences.{ResidenceFor};
ghost use Rattle.process_pages.specs.ReachedResidences.{residence_in, residences_in};
ghost use Rattle.process_pages.specs.ResidenceFinders.{IsRight, AreRight};

use crate::reached_residences::{ReachedResidence, residence_place};
use lx_types::MAX_MODULES_LEN;
use std::marker::Model;

/// Where the residence of a module stands.
#[derive(Clone, Copy, Drop)]
pub enum KnownPosition {
    /// There is none.
    Nowhere,
    /// It is the one of this number.
    At(u8),
    /// It has to be looked for.
    Unknown,
}

/// By module: where its residence stands.
#[derive(Drop)]
pub struct ResidenceFinder {
    positions: [KnownPosition; MAX_MODULES_LEN],
}

impl Model for ResidenceFinder {
    ghost use Rattle.std.specs.Prelude.{◌≡◌, List, length};
    ghost use Rattle.process_pages.specs.declared.residence_finder.KnownPosition.{KnownPosition};
    ghost use Rattle.lx_types.specs.declared.limits.TheConstants.{MAX_MODULES_LEN};

    ghost Value = { List KnownPosition };

    ghost view = { λ f. f.positions };

    ghost invariant = { λ f. length f.positions ≡ MAX_MODULES_LEN };
}

// Where a module's first residence stands after so many others.
fn position_at(k: usize) -> KnownPosition
    ensures { (m : ℕ) (rs : List ResidenceFor) → position (λ r. r.«module» == m) rs ≡ Some k → IsRight result m rs }
{
    match u8::try_from(k) {
        Ok(k) => KnownPosition::At(k),
        Err(_) => KnownPosition::Unknown,
    }
}

// Where the residence of a module stands once one of it joined after so many others.
fn joined_at(known_position: KnownPosition, k: usize) -> KnownPosition
    ensures { (r : ResidenceFor) (rs : List ResidenceFor) → length rs ≡ k → IsRight known_position r.«module» rs → IsRight result r.«module» (rs ++ r ∷ []) }
{
    match known_position {
        KnownPosition::Nowhere => position_at(k),
        KnownPosition::At(_) | KnownPosition::Unknown => known_position,
    }
}

impl ResidenceFinder {
    /// That of a process that reaches no residence.
    pub fn none() -> ResidenceFinder
        ensures { AreRight result [] }
    {
        ResidenceFinder {
            positions: [KnownPosition::Nowhere; MAX_MODULES_LEN],
        }
    }

    // Where the residence of module `m` stands.
    fn known_position(&self, m: u32) -> KnownPosition
        ensures { result ≡ slice_index_or self.now m KnownPosition.Unknown }
    {
        match self.positions.get(m as usize) {
            Some(known_position) => *known_position,
            None => KnownPosition::Unknown,
        }
    }

    /// The place of the residence of module `m` among those that the process reaches. It looks at the others only where
    /// there are more than 256.
    pub fn find(&self, residences: &[ReachedResidence], m: u32) -> Option<usize>
        requires { AreRight self.now (residences_in residences.now) }
        ensures { result ≡ position (λ s. (residence_in s).«module» == m) residences.now }
    {
        match self.known_position(m) {
            KnownPosition::Nowhere => None,
            KnownPosition::At(k) => Some(usize::from(k)),
            KnownPosition::Unknown => residence_place(residences, m),
        }
    }

    /// A residence of module `m` joins after so many others.
    pub fn join(&mut self, m: u32, k: usize)
        ensures { (r : ResidenceFor) (rs : List ResidenceFor) → r.«module» ≡ m → length rs ≡ k → AreRight self.old rs → AreRight self.new (rs ++ r ∷ []) }
    {
        if (m as usize) < MAX_MODULES_LEN {
            self.positions[m as usize] = joined_at(self.positions[m as usize], k);
        }
    }

    /// That of a process that reaches these residences.
    pub fn of(residences: &[ReachedResidence]) -> ResidenceFinder
        ensures { AreRight result (residences_in residences.now) }
    {
        let mut finder = ResidenceFinder::none();
        for k in 0..residences.len() {
            finder.join(residences[k].residence.module(), k);
        }
        finder
    }
}
