//! Where the COMDATs of names stand among those that have begun ("C2h COMDAT").

ghost use Rattle.std.specs.Prelude.{◌≡◌, List, OnOk, bytes_eq, length};
ghost use Rattle.std.specs.List.{position_or_len};
ghost use Rattle.obj_types.specs.declared.parts.BegunComdat.{BegunComdat};
ghost use Rattle.omf_model.specs.Items.{begun_names};
ghost use Rattle.omf_data.specs.Begun.{HavePlaces};

use lx_types::NoMemory;
use name_table::NameTable;
use obj_types::BegunComdat;
use std::alloc::Global;

/// The places of the COMDATs that have begun in an unfinished module, by name, or of the first of them: what began since is
/// seen before a place is asked.
#[derive(Drop)]
pub struct BegunPlaces {
    seen: usize,
    // Of each name the first place.
    places: NameTable<usize>,
}

impl BegunPlaces {
    /// The places of none. They take no memory.
    pub fn new(alloc: Global) -> BegunPlaces
        ensures { (begun : List BegunComdat) → HavePlaces result begun }
    {
        BegunPlaces {
            seen: 0,
            places: NameTable::new(alloc),
        }
    }

    /// Sees those that began since.
    pub fn see(&mut self, alloc: Global, begun: &[BegunComdat]) -> Result<(), NoMemory>
        requires { HavePlaces self.old begun.now }
        ensures places { OnOk result (HavePlaces self.new begun.now) }
        ensures all { OnOk result (self.new.seen ≡ length begun.now) }
    {
        'begun: while self.seen < begun.len() {
            let place = self.seen;
            let _first = self.places.push(alloc, begun[place].name.bytes(), place)?;
            self.seen = place + 1;
        }
        Ok(())
    }

    /// The place of the COMDAT of a name, from 0: where it has begun, else after all.
    pub fn place_of(&self, name: &[u8]) -> usize
        ensures { (begun : List BegunComdat) → HavePlaces self.now begun → self.now.seen ≡ length begun
            → result ≡ position_or_len (bytes_eq name.now) (begun_names begun) }
    {
        match self.places.get(name) {
            Some(place) => *place,
            None => self.seen,
        }
    }
}
