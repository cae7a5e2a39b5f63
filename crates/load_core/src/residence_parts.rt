//! What a board keeps beside each residence.

ghost use Rattle.std.specs.Prelude.{◌≡◌, true, is_some, position, Some};
ghost use Rattle.residence_table.specs.Residences.{has_serial};

use page_fix::Rights;
use page_frames::KeptResidence;
use residence_table::ResidenceTable;
use write_overlay::Layers;

/// The rights to fix the pages of a residence that were not given yet, what its processes share of it, and what they
/// wrote to its shared objects.
pub struct ResidenceParts {
    pub rights: Rights,
    pub shared: KeptResidence,
    pub layers: Layers,
}

// Dropped by a call, as lists are (`Seq`).
impl Drop for ResidenceParts {
    fn drop(self) {
        let ResidenceParts {
            rights,
            shared,
            layers,
        } = self;
        drop(rights);
        drop(shared);
        drop(layers);
    }
}

/// Where the residence of a serial number stands.
pub fn place_with(table: &ResidenceTable<ResidenceParts>, serial: u64) -> usize
    requires { is_some (position (has_serial serial) table.now) ≡ true }
    ensures { position (has_serial serial) table.now ≡ Some result }
{
    match table.place_of(serial) {
        Some(place) => place,
        None => unreachable!(),
    }
}
