//! The residences that a process reaches.

ghost use Rattle.std.specs.Prelude.{◌≡◌, ◌==◌, position};
ghost use Rattle.process_pages.specs.ReachedResidences.{residence_in};

use crate::page_rows::PageRows;
use page_frames::Residence;

/// A residence that the process reaches, and where those of its pages stand that it has mapped.
pub struct ReachedResidence {
    pub residence: Residence,
    pub places: PageRows,
}

// Dropped by a call, as lists are (`Seq`).
impl Drop for ReachedResidence {
    fn drop(self) {
        let ReachedResidence { residence, places } = self;
        drop(residence);
        drop(places);
    }
}

// Whether a residence is of module `m`.
fn is_of(reached: &ReachedResidence, m: u32) -> bool
    ensures { result ≡ ((residence_in reached.now).«module» == m) }
{
    reached.residence.module() == m
}

/// The place of the residence of module `m` among those that the process reaches.
pub fn residence_place(residences: &[ReachedResidence], m: u32) -> Option<usize>
    ensures { result ≡ position (λ s. (residence_in s).«module» == m) residences.now }
{
    residences.iter().position(|reached| is_of(reached, m))
}
