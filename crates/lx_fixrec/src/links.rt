//! Which source of a page stands next in the list of a source, and where the records of a list begin.

ghost use Rattle.std.specs.Prelude.{◌≡◌, ◌+◌, ◌<◌, ◌%◌, ℕ, List, Some, IfOk, length, slice_get};
ghost use Rattle.lx_types.specs.declared.fix.Fix.{Fix};
ghost use Rattle.lx_fixrec.specs.Links.{IsNext, AreLinks, AreFirsts, AreCounted};

use crate::lists::{Firsts, crosses, shared_of};
use lx_model::MAX_LISTED;
use lx_types::{Fix, NoMemory};
use std::alloc::Global;

// The place of the next source of a source's list, or the number of sources. The first ones are those after the source,
// which is put before them.
fn next_of(sources: &[Fix], place: usize, firsts: &mut Firsts) -> Result<usize, NoMemory>
    requires place { place < length sources.now }
    requires firsts { AreFirsts sources.now (place + 1) firsts.old }
    ensures next { IfOk result (λ next. (f : Fix) → slice_get sources.now place ≡ Some f → IsNext sources.now f place next) }
    ensures firsts { IfOk result (λ _. AreFirsts sources.now place firsts.new) }
{
    let fix = &sources[place];
    if crosses(fix) {
        return Ok(sources.len());
    }
    let next = firsts.put(shared_of(fix), place)?;
    Ok(next.unwrap_or(sources.len()))
}

/// For each source of a page, the place of the next one that may stand in its list, and the number of sources where there is
/// none.
pub fn links_of(alloc: Global, sources: &[Fix]) -> Result<Vec<usize>, NoMemory>
    ensures { IfOk result (λ links. AreLinks sources.now links.items) }
{
    let mut firsts = Firsts::new(alloc);
    let mut links = vec![in alloc; 0; sources.len()]?;
    let mut left = sources.len();
    'sources: while 0 < left {
        left -= 1;
        links[left] = next_of(sources, left, &mut firsts)?;
    }
    Ok(links)
}

// The place in a record after a place.
#[tactic(auto, using(crate::proofs::Counts::goes_on, crate::proofs::Counts::begins_anew))]
fn place_after(place: u8) -> u8
    ensures { (a : ℕ) → place ≡ a % 255 → result ≡ (a + 1) % 255 }
{
    if usize::from(place) + 1 < MAX_LISTED {
        place + 1
    } else {
        0
    }
}

/// Counts the source that stands next in the list of a source: the first of a record has the count 0.
pub fn count_next(counts: &mut Vec<u8>, place: usize, next: usize)
    requires { place < length counts.old.items }
    ensures { (s : List Fix) (f : Fix) → slice_get s place ≡ Some f → IsNext s f place next
        → AreCounted s place counts.old.items → AreCounted s (place + 1) counts.new.items }
{
    if next < counts.len() {
        counts[next] = place_after(counts[place]);
    }
}
