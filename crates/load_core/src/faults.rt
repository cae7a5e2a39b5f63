//! Claims of pages: the first claim of a page is its fault.

ghost use Rattle.std.specs.Prelude.{◌≡◌, ◌<◌, ℕ, true, length, is_some, slice_get, slice_set, IfOk, IfSome, OnErr, Some};
ghost use Rattle.std.specs.List.{list_any};
ghost use Rattle.page_fix.specs.Fixable.{is_page};
ghost use Rattle.load_model.specs.State.{Residence, pids, is_among};
ghost use Rattle.load_model.specs.declared.commands.Ask.TheVariants as asks;
ghost use Rattle.load_core.specs.BoardState.{MayAsk};
ghost use Rattle.load_core.specs.Told.{IsClaimed};
ghost use Rattle.load_core.specs.Taken.{without_right};
ghost use Rattle.load_core.specs.declared.residence_parts.ResidenceParts.{ResidenceParts};

use crate::answers::Claim;
use crate::board::Board;
use crate::residence_parts::{ResidenceParts, place_with};
use load_model::{Deed, Entry};
use lx_types::{NoMemory, PageId};
use page_fix::FixRight;
use residence_table::ResidenceTable;

// Takes the right to fix a page of the residence at a place.
fn take_right(
    table: &mut ResidenceTable<ResidenceParts>,
    place: usize,
    p: PageId,
) -> Option<FixRight>
    requires { place < length table.old }
    ensures given { (s : Residence × ResidenceParts) → slice_get table.old place ≡ Some s → is_some result ≡ list_any (is_page p) s.1.rights.left }
    ensures right { (s : Residence × ResidenceParts) → slice_get table.old place ≡ Some s
        → IfSome result (λ f. (f.serial ≡ s.1.rights.serial) × (f.page ≡ p)) }
    ensures left { (s : Residence × ResidenceParts) → slice_get table.old place ≡ Some s → table.new ≡ slice_set table.old place (s.0, without_right p s.1) }
{
    table.beside_mut(place).rights.take(p)
}

impl Board {
    /// Process `pid` claims a page of code or of shared data of the residence of a serial number: the first claim of
    /// a page is its fault, and gives the right to fix it.
    pub fn fault(&mut self, pid: u32, serial: u64, p: PageId) -> Result<Claim, NoMemory>
        requires process { is_among pids pid ≡ true }
        requires may { (m : ℕ) × MayAsk self.old pid (asks.Fault serial m p) }
        ensures claim { IfOk result (IsClaimed self.old self.new pid serial p) }
        ensures err { OnErr result (self.new ≡ self.old) }
    {
        load_model::residences_stay();
        page_fix::fixable_pages_are_found();
        let place = place_with(&self.table, serial);
        let module = self.table.at(place).module();
        self.history.reserve(1)?;
        match take_right(&mut self.table, place, p) {
            Some(right) => {
                self.history.push_reserved(Entry {
                    pid,
                    deed: Deed::Fault {
                        serial,
                        module,
                        page: p,
                    },
                });
                Ok(Claim::Right(right))
            }
            None => Ok(Claim::Taken),
        }
    }
}
