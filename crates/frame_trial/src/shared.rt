//! What the threads share: a residence, and under a lock the rights to its pages that are left.

ghost use Rattle.std.specs.Prelude.{◌≡◌, IfSome};

use lx_types::{NoMemory, PAGE_LEN, PageBytes, PageId};
use page_fix::{FixRight, Rights, Steps, fix_page, fixable_pages_are_found, is_fixable};
use page_frames::Residence;
use std::alloc::Global;
use std::sync::ledger::Ledger;
use std::sync::{Arc, Mutex, Wait};

/// The serial number of the residence.
pub const SERIAL: u64 = 1;

/// The rights that are left, of the residence.
#[derive(Drop)]
struct Desk {
    rights: Rights,
    ghost own: { rights.serial ≡ 1 },
}

impl Desk {
    // The right to a page, where it is left.
    fn take(&mut self, p: PageId) -> Option<FixRight>
        ensures { IfSome result (λ right. (right.serial ≡ 1) × (right.page ≡ p)) }
    {
        self.rights.take(p)
    }
}

/// A residence, and the rights to its pages.
#[derive(Drop)]
pub struct Shared {
    residence: Residence,
    desk: Mutex<Desk>,
    ghost own: { residence.serial ≡ 1 },
}

impl Shared {
    /// A residence, and all rights to its pages.
    pub fn of(residence: Residence, rights: Rights) -> Shared
        requires residence { residence.serial ≡ SERIAL }
        requires rights { rights.serial ≡ SERIAL }
    {
        Shared {
            residence,
            desk: Mutex::new(Desk { rights }),
        }
    }

    /// Copies a page, which this thread fixes and publishes first where its right is left. It says whether it did. A page that
    /// is not shared is left alone.
    pub fn map<L: Ledger, R: Wait>(
        &self,
        rt: &R,
        alloc: Global,
        p: PageId,
        into: &mut PageBytes,
        steps: &mut Steps<L>,
    ) -> Result<bool, NoMemory> {
        let residence = &self.residence;
        let mut bytes = Arc::new(alloc, [0; PAGE_LEN])?;
        let Some(buffer) = Arc::get_mut(&mut bytes) else {
            return Err(NoMemory);
        };
        if !is_fixable(residence.library().module(residence.module()), p) {
            return Ok(false);
        }
        fixable_pages_are_found();
        let right = self.desk.lock(rt).take(p);
        let fixed = match right {
            Some(right) => {
                let library = residence.library();
                let page = fix_page(
                    right,
                    library,
                    residence.module(),
                    residence.bases(),
                    buffer,
                    steps,
                );
                residence.publish(rt, p, page, bytes);
                true
            }
            None => false,
        };
        residence.wait(rt, p, into);
        Ok(fixed)
    }
}
