//! Whether fixups stand in order, so that none covers another.

ghost use Rattle.std.specs.Prelude.{◌≡◌, ◌≤◌, true, All, map, set, slice_index};
ghost use Rattle.link_model.specs.Mean.{fixup_end, live};
ghost use Rattle.link_fix.specs.Shown.{shown};

use crate::fixup::Fixup;
use obj_types::location_len;

/// How many rows of objects are followed. A fixup in a later object is taken as one out of order.
const FOLLOWED: usize = 64;

// Whether a fixup ends before those of its object begin that were noted. Where it does, its begin is noted.
fn note(begins: &mut [u64], q: &Fixup) -> bool
    ensures ends { result ≡ true → fixup_end (shown q.now) ≤ slice_index begins.old q.now.object }
    ensures noted { result ≡ true → begins.new ≡ set begins.old q.now.object q.now.offset }
{
    let object = q.object as usize;
    let end = u64::from(q.offset) + u64::from(location_len(q.loc));
    if object >= begins.len() || begins[object] < end {
        return false;
    }
    begins[object] = u64::from(q.offset);
    true
}

/// Whether each of these fixups ends before the later ones of its object begin, as those of most files do: none shares a
/// byte with another then, and no byte has to be marked to see it. It goes from the last to the first.
pub(crate) fn are_in_order(fixups: &[Fixup]) -> bool
    ensures { result ≡ true → live (map shown fixups.now) ≡ map shown fixups.now }
{
    let mut begins = [u64::MAX; FOLLOWED];
    let mut left = fixups.len();
    'fixups: while 0 < left {
        left -= 1;
        if !note(&mut begins, &fixups[left]) {
            return false;
        }
    }
    true
}
