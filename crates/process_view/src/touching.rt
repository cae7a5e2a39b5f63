//! Pages that a process maps, one at a time.

ghost use Rattle.std.specs.Prelude.{◌≡◌, ◌<◌, ◌+◌, ◌-◌, ℕ, true, false, OnOk, length, slice_index_or};
ghost use Rattle.std.specs.Arc.{arc_value};
ghost use Rattle.lx_types.specs.Object.{pages_of};
ghost use Rattle.lx_types.specs.Parts.{object_of};
ghost use Rattle.lx_types.specs.Sound.{IsNumberOf};
ghost use Rattle.lx_model.specs.Library.{module_of};
ghost use Rattle.lx_model.specs.Fixed.{sources_of};
ghost use Rattle.lx_model.specs.ModuleBytes.{fixed_page};
ghost use Rattle.page_fix.specs.Fixable.{is_fixable};
ghost use Rattle.page_frames.specs.Residences.{ResidenceFor};
ghost use Rattle.load_model.specs.Views.{mapped_pages};
ghost use Rattle.load_model.specs.TouchedPages.{has_page};
ghost use Rattle.process_pages.specs.ReachedResidences.{page_with};
ghost use Rattle.process_view.specs.Deeds.{with_page};

use crate::spans::class_of;
use crate::view::View;
use lx_types::{Class, NoMemory, PAGE_LEN, PageBytes, PageId};
use page_fix::{FixRight, FixedPage, Steps, fix_page, fix_private};
use page_frames::Residence;
use process_pages::MappedPage;
use std::alloc::Global;
use std::sync::ledger::Ledger;
use std::sync::{Arc, Wait};

impl View {
    /// Finds room for one page more.
    pub fn reserve_page(&mut self) -> Result<(), NoMemory>
        ensures room { OnOk result (0 < self.new.page_room) }
        ensures same { self.new ≡ record self.old { page_room = self.new.page_room } }
    {
        self.pages.reserve(1)?;
        Ok(())
    }

    /// Whether a page of a residence is mapped.
    pub fn is_mapped(&self, k: usize, p: PageId) -> bool
        requires residence { k < length self.now.residences }
        requires object { (d : ResidenceFor) → IsNumberOf p.object
            (length (module_of self.now.library (slice_index_or self.now.residences k d).«module»).objects) }
        requires page { (d : ResidenceFor) → p.page < pages_of
            (object_of (module_of self.now.library (slice_index_or self.now.residences k d).«module») p.object) }
        ensures { (d : ResidenceFor) → result ≡ has_page (mapped_pages self.now.holding) (slice_index_or self.now.residences k d).serial p }
    {
        self.reached_at(k).places.get(p).is_some()
    }

    // A residence that the process reaches.
    pub(crate) fn residence(&self, k: usize) -> &Residence
        requires { k < length self.now.residences }
        ensures { (d : ResidenceFor) → result.now ≡ slice_index_or self.now.residences k d }
    {
        &self.reached_at(k).residence
    }

    // Keeps a page of a residence, in its room.
    pub(crate) fn keep_page(&mut self, k: usize, p: PageId, page: MappedPage)
        requires room { 0 < self.old.page_room }
        requires residence { k < length self.old.residences }
        requires page { (d : ResidenceFor) → CanMap self.old (slice_index_or self.old.residences k d) p }
        requires own { (d : ResidenceFor) → page ≡ page_with (slice_index_or self.old.residences k d) p page.bytes }
        requires whole { length page.bytes ≡ PAGE_LEN }
        ensures { (d : ResidenceFor) → self.new ≡ with_page (slice_index_or self.old.residences k d) p page.bytes self.old }
    {
        let reached = &mut self.residences[k];
        reached.places.put(p, self.pages.len());
        self.pages.push_reserved(page);
    }

    // A buffer for a page that all processes share: one that was not used, or a new one.
    fn take_buffer(&mut self, alloc: Global) -> Result<Arc<PageBytes>, NoMemory>
        ensures { self.new ≡ self.old }
    {
        match self.buffer.take() {
            Some(buffer) => Ok(buffer),
            None => Ok(Arc::new(alloc, [0; PAGE_LEN])?),
        }
    }

    /// Finds room for one page more that all processes share, and a buffer for its bytes, which nobody else holds.
    pub fn prepare_page(&mut self, alloc: Global) -> Result<Arc<PageBytes>, NoMemory>
        ensures room { OnOk result (0 < self.new.page_room) }
        ensures same { self.new ≡ record self.old { page_room = self.new.page_room } }
    {
        self.reserve_page()?;
        self.take_buffer(alloc)
    }

    // Keeps a buffer that was not used, for the next such page.
    fn keep_buffer(&mut self, buffer: Arc<PageBytes>)
        ensures { self.new ≡ self.old }
    {
        self.buffer = Some(buffer);
    }
}

impl View {
    /// Maps a page of the process's own: it is fixed for this process alone. It takes no memory.
    pub fn map_private<L: Ledger>(
        &mut self,
        k: usize,
        p: PageId,
        buffer: Box<PageBytes>,
        steps: &mut Steps<L>,
    )
        requires room { 0 < self.old.page_room }
        requires residence { k < length self.old.residences }
        requires page { (d : ResidenceFor) → CanMap self.old (slice_index_or self.old.residences k d) p }
        requires own { (d : ResidenceFor) → IsOwnPage self.old (slice_index_or self.old.residences k d) p }
        ensures mapped { (d : ResidenceFor) → IsFixedIn self.old self.new (slice_index_or self.old.residences k d) p }
        ensures steps { (d : ResidenceFor) → steps.new ≡ steps.old + source_count self.old.library (slice_index_or self.old.residences k d).«module» p }
    {
        let residence = self.residence(k);
        let bytes = fix_private(
            self.library(),
            residence.module(),
            residence.bases(),
            p,
            buffer,
            steps,
        );
        let page = MappedPage::own(residence.serial(), p, bytes);
        self.keep_page(k, p, page);
    }

    /// Spends the right to fix a page: writes the page into the buffer, which is to be published. It takes no memory.
    pub fn fix<L: Ledger>(
        &self,
        k: usize,
        right: FixRight,
        buffer: &mut PageBytes,
        steps: &mut Steps<L>,
    ) -> FixedPage
        requires residence { k < length self.now.residences }
        requires page { (d : ResidenceFor) → CanMap self.now (slice_index_or self.now.residences k d) right.page }
        requires own { (d : ResidenceFor) → right.serial ≡ (slice_index_or self.now.residences k d).serial }
        ensures page { (d : ResidenceFor) → result ≡ fixed_of self.now (slice_index_or self.now.residences k d) right.page }
        ensures written { buffer.new ≡ result.bytes }
        ensures steps { (d : ResidenceFor) → steps.new
            ≡ steps.old + source_count self.now.library (slice_index_or self.now.residences k d).«module» right.page }
    {
        let residence = self.residence(k);
        fix_page(
            right,
            self.library(),
            residence.module(),
            residence.bases(),
            buffer,
            steps,
        )
    }

    /// Publishes a page that was fixed into a buffer, for all processes. It waits for nobody and takes no memory.
    pub fn publish<R: Wait>(
        &self,
        rt: &R,
        k: usize,
        p: PageId,
        page: FixedPage,
        bytes: Arc<PageBytes>,
    )
        requires residence { k < length self.now.residences }
        requires page { (d : ResidenceFor) → CanMap self.now (slice_index_or self.now.residences k d) p }
        requires shared { (d : ResidenceFor) → IsSharedPage self.now (slice_index_or self.now.residences k d) p }
        requires fixed { (d : ResidenceFor) → page ≡ fixed_of self.now (slice_index_or self.now.residences k d) p }
        requires buffer { arc_value bytes ≡ page.bytes }
    {
        self.residence(k).publish(rt, p, page, bytes);
    }

    /// Maps a page that all processes share, once it is published: its bytes are those of its frame until the process writes
    /// there. It takes no memory.
    pub fn map_shared<R: Wait>(&mut self, rt: &R, k: usize, p: PageId)
        requires room { 0 < self.old.page_room }
        requires residence { k < length self.old.residences }
        requires page { (d : ResidenceFor) → CanMap self.old (slice_index_or self.old.residences k d) p }
        requires shared { (d : ResidenceFor) → IsSharedPage self.old (slice_index_or self.old.residences k d) p }
        ensures { (d : ResidenceFor) → IsFixedIn self.old self.new (slice_index_or self.old.residences k d) p }
    {
        let residence = self.residence(k);
        let bytes = residence.hold(rt, p);
        let page = MappedPage::shared(residence.serial(), p, bytes);
        self.keep_page(k, p, page);
    }

    /// Maps a page that another process fixes, as `map_shared` does, and keeps the buffer that was not used for it.
    pub fn map_taken<R: Wait>(&mut self, rt: &R, k: usize, p: PageId, unused: Arc<PageBytes>)
        requires room { 0 < self.old.page_room }
        requires residence { k < length self.old.residences }
        requires page { (d : ResidenceFor) → CanMap self.old (slice_index_or self.old.residences k d) p }
        requires shared { (d : ResidenceFor) → IsSharedPage self.old (slice_index_or self.old.residences k d) p }
        ensures { (d : ResidenceFor) → IsFixedIn self.old self.new (slice_index_or self.old.residences k d) p }
    {
        self.keep_buffer(unused);
        self.map_shared(rt, k, p);
    }
}

ghost use Rattle.load_model.specs.Modules.{source_count};
ghost use Rattle.process_view.specs.Deeds.{CanMap, IsOwnPage, IsSharedPage, IsFixedIn, fixed_of};
