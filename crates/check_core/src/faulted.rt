//! Which pages had their fault.

ghost use Rattle.std.specs.Prelude.{◌≡◌, ◌∷◌, ◌++◌, [], List, OnOk, OnErr};
ghost use Rattle.load_model.specs.declared.deeds.Entry.{Entry as Done};
ghost use Rattle.load_model.specs.Histories.{has_fault};
ghost use Rattle.check_core.specs.FaultedHistories.{AreFaultsOf};

use load_model::{Deed, Entry};
use lx_types::{NoMemory, PageId};
use std::alloc::Global;
use std::collections::HashSet;

/// A residence by its serial number, and a page of one of its objects.
type PageKey = (u64, (u32, u32));

/// The pages that had their fault in a history. A page is looked up without a search over the history.
#[derive(Drop)]
pub struct FaultedPages {
    keys: HashSet<PageKey>,
}

impl FaultedPages {
    /// Those of the history in which nothing was done. It takes no memory.
    pub fn new(alloc: Global) -> FaultedPages
        ensures { AreFaultsOf result [] }
    {
        FaultedPages {
            keys: HashSet::new(alloc),
        }
    }

    /// Whether a page of the residence of a serial number had its fault.
    pub fn has(&self, serial: u64, page: PageId) -> bool
        ensures { (h : List Done) → AreFaultsOf self.now h → result ≡ has_fault h serial page }
    {
        self.keys.contains(&(serial, (page.object, page.page)))
    }

    /// Goes on to the history with one entry more.
    pub fn follow(&mut self, entry: &Entry) -> Result<(), NoMemory>
        ensures more { OnOk result ((h : List Done) → AreFaultsOf self.old h → AreFaultsOf self.new (h ++ entry.now ∷ [])) }
        ensures err { OnErr result ((h : List Done) → AreFaultsOf self.old h → AreFaultsOf self.new h) }
    {
        if let Deed::Fault { serial, page, .. } = &entry.deed {
            self.keys.insert((*serial, (page.object, page.page)))?;
        }
        Ok(())
    }
}
