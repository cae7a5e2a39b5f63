//! Where the segments, the communals and the groups of a link stand, as its fixups ask for them.

ghost use Rattle.std.specs.Prelude.{◌≡◌};
ghost use Rattle.link_types.specs.Places.{spot_in, common_in, group_in};

use crate::items::item_at;

/// Places in objects, which count from 1, as all else here but slots; offsets are in bytes.
pub struct Places {
    /// The place of each segment of each chosen module: none for a debug segment.
    pub spots: Vec<Vec<Option<(u32, u32)>>>,
    /// The place of each communal, by its slot, from 0.
    pub commons: Vec<(u32, u32)>,
    /// The object of each group of each chosen module: none for FLAT and for a group without members.
    pub groups: Vec<Vec<Option<u32>>>,
}

// Dropped by a call, as lists are (`Seq`).
impl Drop for Places {
    fn drop(self) {
        let Places {
            spots,
            commons,
            groups,
        } = self;
        drop(spots);
        drop(commons);
        drop(groups);
    }
}

impl Places {
    /// The place of a segment of a chosen module.
    pub fn spot(&self, module: u32, seg: u32) -> Option<(u32, u32)>
        ensures { result ≡ spot_in self.now «module» seg }
    {
        match item_at(self.spots.as_slice(), module) {
            None => None,
            Some(row) => match item_at(row.as_slice(), seg) {
                None => None,
                Some(place) => *place,
            },
        }
    }

    /// The place of a communal.
    pub fn common(&self, slot: u32) -> Option<(u32, u32)>
        ensures { result ≡ common_in self.now slot }
    {
        self.commons.get(slot as usize).copied()
    }

    /// The object of a group of a chosen module, where there is the group.
    pub fn group(&self, module: u32, index: u32) -> Option<Option<u32>>
        ensures { result ≡ group_in self.now «module» index }
    {
        match item_at(self.groups.as_slice(), module) {
            None => None,
            Some(row) => item_at(row.as_slice(), index).copied(),
        }
    }
}
