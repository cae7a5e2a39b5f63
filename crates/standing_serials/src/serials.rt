//! The serial number that each module had last.

ghost use Rattle.std.specs.Prelude.{◌≡◌, ◌<◌, ◌∷◌, ◌++◌, [], IfOk, List, length, slice_index};
ghost use Rattle.load_model.specs.declared.deeds.Entry.{Entry as Done};
ghost use Rattle.load_model.specs.Modules.{Library, Held};
ghost use Rattle.load_model.specs.State.{Failing};
ghost use Rattle.load_model.specs.Histories.{state_after, Follows};
ghost use Rattle.standing_serials.specs.Standing.{AreSerialsOf, serials_with, serials_after};

use load_model::{Deed, Entry, Fresh};
use lx_types::NoMemory;
use std::alloc::Global;
use std::marker::Model;

/// The serial number that was given last to a residence of each module: where one stands, it is that one's. Modules count
/// from 0.
#[derive(Drop)]
pub struct StandingSerials {
    last: Vec<u64>,
}

impl Model for StandingSerials {
    ghost use Rattle.std.specs.Prelude.{List, ℕ};

    ghost Value = { List ℕ };

    ghost view = { λ s. s.last.items };
}

impl StandingSerials {
    /// Those of a library of so many modules, before any entry.
    pub fn new(alloc: Global, modules: u32) -> Result<StandingSerials, NoMemory>
        ensures { IfOk result (λ s. (lib : Library) (failing : Failing) → length lib ≡ modules → AreSerialsOf lib (state_after lib failing []) s) }
    {
        Ok(StandingSerials {
            last: vec![in alloc; 0; modules as usize]?,
        })
    }

    /// The last one of module `m`. It looks at one number.
    pub fn last(&self, m: u32) -> u64
        requires { m < length self.now }
        ensures { result ≡ slice_index self.now m }
    {
        self.last[m as usize]
    }

    // Goes on with residences that begin. Of a module that stands there twice the first counts.
    fn begin(&mut self, fresh: &[Fresh])
        ensures { self.new ≡ serials_with fresh.now self.old }
    {
        for done in 0..fresh.len() {
            let one = &fresh[fresh.len() - 1 - done];
            let m = one.module as usize;
            if m < self.last.len() {
                self.last[m] = one.serial;
            }
        }
    }

    // Those after an entry.
    fn keep(&mut self, entry: &Entry)
        ensures { self.new ≡ serials_after entry.now.deed self.old }
    {
        if let Deed::Enter { fresh, .. } = &entry.deed {
            self.begin(fresh.as_slice());
        }
    }

    /// Goes on to the history with one entry more. It takes no memory.
    pub fn follow(&mut self, entry: &Entry)
        ensures made { self.new ≡ serials_after entry.now.deed self.old }
        ensures stand { (lib : Library) (failing : Failing) (contents : Held) (h : List Done) → Follows lib failing contents h entry.now
            → AreSerialsOf lib (state_after lib failing h) self.old → AreSerialsOf lib (state_after lib failing (h ++ entry.now ∷ [])) self.new }
    {
        self.keep(entry);
    }
}
