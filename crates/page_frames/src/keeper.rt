//! Who keeps residences: each serial number is given to one.

ghost use Rattle.std.specs.Prelude.{◌≡◌, ◌+◌, ◌≤◌, IfOk};
ghost use Rattle.std.specs.Arc.{arc_value};
ghost use Rattle.page_frames.specs.Residences.{kept_by};

use crate::frames::{Frames, UNTOLD};
use crate::residence::Residence;
use lx_types::NoMemory;
use std::marker::Model;
use std::sync::Arc;

/// A residence as its keeper has it, who hands it out. Until it is given to a keeper contracts say nothing of who that is.
pub struct KeptResidence {
    frames: Arc<Frames>,
    keeper: u64,
}

// Dropped by a call, as lists are (`Seq`).
impl Drop for KeptResidence {
    fn drop(self) {
        let KeptResidence { frames, keeper: _ } = self;
        drop(frames);
    }
}

impl Model for KeptResidence {
    ghost use Rattle.std.specs.Arc.{arc_value};
    ghost use Rattle.page_frames.specs.Residences.{KeptFor};

    ghost Value = { KeptFor };

    ghost view = { λ k. record { frames = arc_value k.frames; keeper = k.keeper } };
}

impl KeptResidence {
    /// The residence of these frames, which no keeper has yet.
    pub fn new(frames: Arc<Frames>) -> KeptResidence
        ensures { result.frames ≡ arc_value frames }
    {
        KeptResidence {
            frames,
            keeper: UNTOLD,
        }
    }

    /// One more hold on the frames.
    pub fn hold(&self) -> Result<Arc<Frames>, NoMemory>
        ensures { IfOk result (λ held. arc_value held ≡ self.now.frames) }
    {
        Ok(Arc::try_clone(&self.frames)?)
    }

    /// Hands the residence out, by a hold on its frames. It takes no memory.
    pub fn hand_out(&self, held: Arc<Frames>) -> Residence
        requires { arc_value held ≡ self.now.frames }
        ensures { result ≡ kept_by self.now.keeper self.now.frames }
    {
        Residence {
            frames: held,
            keeper: self.keeper,
        }
    }
}

/// Who keeps residences, and how many serial numbers were given. Contracts see its name, and not which number it is.
#[derive(Drop)]
pub struct Keeper {
    name: u64,
    given: u64,
}

impl Model for Keeper {
    ghost use Rattle.page_frames.specs.Residences.{Keeping};

    ghost Value = { Keeping };

    ghost view = { λ k. record { name = k.name; given = k.given } };
}

impl Keeper {
    /// A keeper of a name of its own, who has given no serial number.
    pub fn new() -> Keeper
        ensures { result.given ≡ 0 }
    {
        Keeper {
            name: UNTOLD,
            given: 0,
        }
    }

    /// How many serial numbers were given: the last one.
    pub fn given(&self) -> u64
        ensures { result ≡ self.now.given }
    {
        self.given
    }

    /// Gives serial numbers up to this one to nobody: to residences that began and ended in one step.
    pub fn pass(&mut self, given: u64)
        requires { self.old.given ≤ given }
        ensures { self.new ≡ record self.old { given = given } }
    {
        self.given = given;
    }

    /// Keeps the residence that has the next serial number.
    pub fn keep(&mut self, residence: &mut KeptResidence)
        requires next { residence.old.frames.serial ≡ self.old.given + 1 }
        ensures kept { residence.new ≡ record residence.old { keeper = self.old.name } }
        ensures given { self.new ≡ record self.old { given = self.old.given + 1 } }
    {
        self.given = residence.frames.serial();
        residence.keeper = self.name;
    }
}
