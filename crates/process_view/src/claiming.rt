//! Claims of pages that all processes share.

ghost use Rattle.std.specs.Prelude.{◌≡◌, ◌<◌, MatchResult, false, length, slice_index_or};
ghost use Rattle.lx_types.specs.Object.{pages_of};
ghost use Rattle.lx_types.specs.Parts.{object_of};
ghost use Rattle.lx_types.specs.Sound.{IsNumberOf};
ghost use Rattle.lx_model.specs.Library.{module_of};
ghost use Rattle.page_fix.specs.Fixable.{is_fixable};
ghost use Rattle.page_frames.specs.Residences.{ResidenceFor};
ghost use Rattle.process_view.specs.ProcessViews.{StandsAt};
ghost use Rattle.process_view.specs.Deeds.{CanMap, IsSharedPage, IsClaimedIn, IsIdle};

use crate::spans::is_shared_page;
use crate::view::View;
use load_core::{Board, Claim};
use load_model::{residences_stay, views_stand};
use lx_types::{NoMemory, PageId};

impl View {
    /// Whether all processes share a page of a residence.
    pub fn is_shared_page(&self, k: usize, p: PageId) -> bool
        requires residence { k < length self.now.residences }
        requires object { (d : ResidenceFor) → IsNumberOf p.object
            (length (module_of self.now.library (slice_index_or self.now.residences k d).«module»).objects) }
        requires page { (d : ResidenceFor) → p.page < pages_of
            (object_of (module_of self.now.library (slice_index_or self.now.residences k d).«module») p.object) }
        ensures { (d : ResidenceFor) → result ≡ is_fixable (module_of self.now.library (slice_index_or self.now.residences k d).«module») p }
    {
        is_shared_page(self.library(), self.residence_module(k), p)
    }

    /// Claims a page that all processes share. Who claims it first has the right to fix it, and its fault has its entry.
    pub fn claim(&mut self, board: &mut Board, k: usize, p: PageId) -> Result<Claim, NoMemory>
        requires stands { StandsAt board.old self.old }
        requires going { self.old.holding.ended ≡ false }
        requires residence { k < length self.old.residences }
        requires page { (d : ResidenceFor) → CanMap self.old (slice_index_or self.old.residences k d) p }
        requires shared { (d : ResidenceFor) → IsSharedPage self.old (slice_index_or self.old.residences k d) p }
        ensures { (d : ResidenceFor) → MatchResult result (IsClaimedIn board.old board.new self.old self.new (slice_index_or self.old.residences k d) p)
            (λ _. IsIdle board.old board.new self.old self.new) }
    {
        residences_stay();
        views_stand();
        board.history();
        let pid = self.pid();
        let serial = self.residence(k).serial();
        match board.fault(pid, serial, p)? {
            Claim::Right(right) => {
                self.follow(board);
                Ok(Claim::Right(right))
            }
            Claim::Taken => Ok(Claim::Taken),
        }
    }
}
