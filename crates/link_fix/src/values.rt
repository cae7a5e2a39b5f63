//! What stands in a fixup's field before the loader: the bytes of a value that no base changes, or zeros.

ghost use Rattle.std.specs.Prelude.{◌≡◌, ◌+◌, ◌<◌, ◌++◌, ◌%◌, ◌^◌, ℕ, IsTrue, None, []};
ghost use Rattle.std.specs.Prelude.{◌∷◌, slice_index};
ghost use Rattle.lx_bytes.specs.LittleEndian.{little_bytes};
ghost use Rattle.obj_types.specs.Location.{location_len as len_of_location};
ghost use Rattle.link_model.specs.Link.{Link};
ghost use Rattle.link_model.specs.Fixups.{fix_refusal};
ghost use Rattle.link_model.specs.Value.{value_bytes};
ghost use Rattle.link_model.specs.Patches.{is_patched as patched, linked_world};
ghost use Rattle.link_fix.specs.Shown.{shown};
ghost use Rattle.link_fix.specs.Values.{field_byte};

use crate::fixup::{Fixup, Target};
use crate::refusal::{difference, is_constant, is_in};
use obj_types::location_len;

/// Whether the value of a fixup is the same at all bases: a constant, or the distance within one object.
pub(crate) fn is_patched(q: &Fixup) -> bool
    ensures { result ≡ patched (shown q.now) }
{
    is_constant(q.target) || q.selfrel && is_in(q.target, q.object)
}

// The value of a fixup that no base changes.
fn patch(q: &Fixup) -> u32
    requires patched { IsTrue (patched (shown q.now)) }
    requires accepted { fix_refusal (shown q.now) ≡ None }
    requires location { 0 < len_of_location q.now.loc }
    ensures { (l : Link) → value_bytes l (linked_world l) (shown q.now) ≡ little_bytes (len_of_location q.now.loc) result }
{
    let added = u64::from(q.added);
    let past = u64::from(q.offset) + u64::from(location_len(q.loc));
    match q.target {
        Target::Internal { object: _, offset } => difference(u64::from(offset) + added, past),
        Target::Constant { value } => ((u64::from(value) + added) % 0x1_0000_0000) as u32,
        Target::Entry { slot: _ } => 0,
    }
}

// The bytes of a number, the lowest first, and two zeros.
fn bytes_of(n: u32) -> [u8; 6]
    ensures { result ≡ little_bytes 4 n ++ (0 ∷ 0 ∷ []) }
{
    [
        (n % 256) as u8,
        (n / 256 % 256) as u8,
        (n / 256 / 256 % 256) as u8,
        (n / 256 / 256 / 256 % 256) as u8,
        0,
        0,
    ]
}

/// What stands in a fixup's field before the loader, as many bytes as its location has: the value where no base
/// changes it, and zeros where the loader gets a record.
pub(crate) fn field_of(q: &Fixup) -> [u8; 6]
    requires accepted { fix_refusal (shown q.now) ≡ None }
    requires location { 0 < len_of_location q.now.loc }
    ensures { (l : Link) (k : ℕ) → k < len_of_location q.now.loc → slice_index result k ≡ field_byte l (shown q.now) k }
{
    if is_patched(q) {
        bytes_of(patch(q))
    } else {
        [0; 6]
    }
}
