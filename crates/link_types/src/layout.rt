//! The layout of a link.

ghost use Rattle.std.specs.Prelude.{◌≡◌};
ghost use Rattle.link_types.specs.Places.{spot_in, common_in};

use crate::places::Places;
use link_model::LaidObject;
use lx_types::Seq;

/// The objects of a link, and where its segments, its communals, its groups and its stack stand in them.
pub struct Layout {
    /// The objects, which are numbered from 1: sizes and linked bases in bytes, and object flags.
    pub objects: Seq<LaidObject>,
    /// Where the segments, the communals and the groups stand.
    pub places: Places,
    /// The object and the offset of the stack's end.
    pub stack: Option<(u32, u32)>,
}

// Dropped by a call, as lists are (`Seq`).
impl Drop for Layout {
    fn drop(self) {
        let Layout {
            objects,
            places: _,
            stack: _,
        } = self;
        drop(objects);
    }
}

impl Layout {
    /// The objects, in order.
    pub fn objects(&self) -> &[LaidObject]
        ensures { result.now ≡ self.now.objects }
    {
        self.objects.as_slice()
    }

    /// The object and the offset at which a segment of a chosen module stands: none for a debug segment.
    pub fn spot(&self, module: u32, seg: u32) -> Option<(u32, u32)>
        ensures { result ≡ spot_in self.now.places «module» seg }
    {
        self.places.spot(module, seg)
    }

    /// The object and the offset at which a communal stands.
    pub fn common(&self, slot: u32) -> Option<(u32, u32)>
        ensures { result ≡ common_in self.now.places slot }
    {
        self.places.common(slot)
    }
}
