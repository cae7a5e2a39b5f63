//! What a process keeps after a start or a load.

ghost use Rattle.std.specs.Prelude.{◌≡◌, ◌<◌, All, false, length};
ghost use Rattle.lx_types.specs.declared.object.PageId.{PageId};
ghost use Rattle.lx_model.specs.Library.{module_of};
ghost use Rattle.load_model.specs.Views.{mapped_pages};
ghost use Rattle.load_model.specs.TouchedPages.{has_page};
ghost use Rattle.process_pages.specs.PageRows.{HaveNone};
ghost use Rattle.process_view.specs.Deeds.{with_residence};

use crate::view::View;
use page_frames::Residence;
use process_pages::{PageRows, ReachedResidence};

impl View {
    // Keeps a residence, in its room. None of its pages is mapped.
    pub(crate) fn keep_residence(&mut self, residence: Residence, places: PageRows)
        requires room { 0 < self.old.residence_room }
        requires within { residence.«module» < length self.old.library }
        requires none { HaveNone (module_of self.old.library residence.«module») places }
        requires unmapped { (p : PageId) → has_page (mapped_pages self.old.holding) residence.serial p ≡ false }
        requires apart { All (λ r. r.serial ≡ residence.serial → ⊥) self.old.residences }
        ensures { self.new ≡ with_residence residence self.old }
    {
        self.finder.join(residence.module(), self.residences.len());
        self.residences
            .push_reserved(ReachedResidence { residence, places });
    }
}
