//! A page that was fixed.

ghost use Rattle.std.specs.Prelude.{◌≡◌};

use lx_types::{PageBytes, PageId};
use mod_graph::Library;
use std::marker::Model;
use std::snapshot::Snapshot;
use std::sync::Arc;

/// That a right was spent: a page of a residence stands with its fixups in a buffer of who had the right. It cannot be let go:
/// whoever has it publishes the page. Contracts see the bytes, which are stored in the buffer alone.
pub struct FixedPage {
    pub(crate) serial: u64,
    pub(crate) page: PageId,
    pub(crate) bytes: Snapshot<PageBytes>,
}

impl Model for FixedPage {
    ghost use Rattle.page_fix.specs.Rights.{PageBytes};

    ghost Value = { PageBytes };

    ghost view = { λ f. record { serial = f.serial; page = f.page; bytes = f.bytes.value } };
}

impl FixedPage {
    /// The serial number of the residence.
    pub fn serial(&self) -> u64
        ensures { result ≡ self.now.serial }
    {
        self.serial
    }

    /// Which page it is.
    pub fn page(&self) -> PageId
        ensures { result ≡ self.now.page }
    {
        self.page
    }

    /// The page is published, in the frames that are made of a library. Who has the library as its processes have it
    /// (`LentLibrary`) has no `Arc` of it, and so nobody but the frames ends a page that was fixed.
    pub fn publish(self, lib: &Arc<Library>) {
        let _ = lib;
        let FixedPage {
            serial: _,
            page: _,
            bytes: _,
        } = self;
    }
}
