//! A page that a process has mapped.

ghost use Rattle.std.specs.Prelude.{◌≡◌, ◌<◌, ◌≤◌, ◌+◌, ◌^◌, true, box_value, length};
ghost use Rattle.std.specs.Arc.{arc_value};
ghost use Rattle.load_model.specs.WrittenPages.{over_page};
ghost use Rattle.process_pages.specs.HeldPages.{held_bytes, is_own};

use crate::spare_pages::SparePages;
use lx_types::{PAGE_LEN, PAGE_SIZE, PageBytes, PageId};
use std::marker::Model;
use std::slice;
use std::sync::Arc;
use write_overlay::{Write, lay};

/// The bytes of a page that a process has mapped.
#[derive(Drop)]
enum HeldBytes {
    /// They are those that all have who map the page, and the process has written nothing there.
    Shared(Arc<PageBytes>),
    /// They are the process's own.
    Own(Box<PageBytes>),
}

/// A page of a residence with its bytes, as one process sees them: those of the frame that all share until the process writes
/// there, else a copy of its own with its writes in it.
pub struct MappedPage {
    serial: u64,
    page: PageId,
    bytes: HeldBytes,
}

// Dropped by a call, as lists are (`Seq`).
impl Drop for MappedPage {
    fn drop(self) {
        let MappedPage {
            serial: _,
            page: _,
            bytes,
        } = self;
        drop(bytes);
    }
}

impl Model for MappedPage {
    ghost use Rattle.lx_types.specs.declared.limits.TheConstants.{PAGE_LEN};
    ghost use Rattle.std.specs.Prelude.{◌≡◌, ◌<◌, ◌^◌, length};
    ghost use Rattle.load_model.specs.Views.{Mapped};
    ghost use Rattle.process_pages.specs.HeldPages.{held_bytes};

    ghost Value = { Mapped };

    ghost view = { λ p. record { of = record { serial = p.serial; page = p.page }; bytes = held_bytes p.bytes } };

    ghost invariant = { λ p. (p.page.page < 2 ^ 20) × (length (held_bytes p.bytes) ≡ PAGE_LEN) };
}

impl HeldBytes {
    // Makes them the process's own: where others have them too, they are copied into one of the spare buffers.
    fn make_own(&mut self, spares: &mut SparePages)
        requires { 0 < spares.old }
        ensures left { spares.old ≤ spares.new + 1 }
        ensures own { is_own self.new ≡ true }
        ensures same { held_bytes self.new ≡ held_bytes self.old }
    {
        if let HeldBytes::Shared(shared) = self {
            let mut own = spares.take();
            *own = **shared;
            *self = HeldBytes::Own(own);
        }
    }
}

// Puts a write to the object of a page into the page's bytes, as far as it lies there.
fn put_in(bytes: &mut PageBytes, page: PageId, write: &Write)
    requires small { page.page < 2 ^ 20 }
    requires object { write.now.object ≡ page.object }
    requires whole { length bytes.old ≡ PAGE_LEN }
    ensures { bytes.new ≡ over_page write.now page bytes.old }
{
    let offset = page.page * PAGE_SIZE;
    lay(
        slice::from_ref(write),
        page.object,
        offset,
        bytes.as_mut_slice(),
    );
}

impl MappedPage {
    /// The page of a residence with these bytes, of the process's own.
    pub fn own(serial: u64, page: PageId, bytes: Box<PageBytes>) -> MappedPage
        requires small { page.page < 2 ^ 20 }
        requires whole { length (box_value bytes) ≡ PAGE_LEN }
        ensures { result ≡ record { of = record { serial = serial; page = page }; bytes = box_value bytes } }
    {
        MappedPage {
            serial,
            page,
            bytes: HeldBytes::Own(bytes),
        }
    }

    /// The page of a residence with these bytes, which others have too.
    pub fn shared(serial: u64, page: PageId, bytes: Arc<PageBytes>) -> MappedPage
        requires small { page.page < 2 ^ 20 }
        requires whole { length (arc_value bytes) ≡ PAGE_LEN }
        ensures { result ≡ record { of = record { serial = serial; page = page }; bytes = arc_value bytes } }
    {
        MappedPage {
            serial,
            page,
            bytes: HeldBytes::Shared(bytes),
        }
    }

    /// The serial number of its residence.
    pub fn serial(&self) -> u64
        ensures { result ≡ self.now.of.serial }
    {
        self.serial
    }

    /// Which page of the module it is.
    pub fn page(&self) -> PageId
        ensures page { result ≡ self.now.of.page }
        ensures small { result.page < 2 ^ 20 }
    {
        self.page
    }

    /// Its bytes.
    pub fn bytes(&self) -> &PageBytes
        ensures bytes { result.now ≡ self.now.bytes }
        ensures length { length result.now ≡ PAGE_LEN }
    {
        match &self.bytes {
            HeldBytes::Shared(bytes) => bytes,
            HeldBytes::Own(bytes) => bytes,
        }
    }

    /// Puts a write to its object into the page, as far as it lies there. Where its bytes are shared they are copied first, into
    /// one of the spare buffers.
    pub fn put(&mut self, write: &Write, spares: &mut SparePages)
        requires object { write.now.object ≡ self.old.of.page.object }
        requires spare { 0 < spares.old }
        ensures left { spares.old ≤ spares.new + 1 }
        ensures put { self.new ≡ record self.old { bytes = over_page write.now self.old.of.page self.old.bytes } }
    {
        self.bytes.make_own(spares);
        match &mut self.bytes {
            HeldBytes::Own(bytes) => put_in(bytes, self.page, write),
            HeldBytes::Shared(_) => unreachable!(),
        }
    }
}
