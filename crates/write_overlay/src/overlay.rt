//! Writes laid over bytes.

ghost use Rattle.std.specs.Prelude.{◌≡◌, ◌≤◌, ◌<◌, ◌+◌, ℕ, length, slice_index};
ghost use Rattle.write_overlay.specs.Laid.{byte_under, bytes_under, replaced};

use crate::write::Write;

/// Puts a run in the place of other bytes.
fn replace(into: &mut [u8], place: usize, run: &[u8])
    requires { place + length run.now ≤ length into.old }
    ensures { (k : ℕ) → slice_index into.new k ≡ replaced place run.now into.old k }
{
    let end = place + run.len();
    into[place..end].copy_from_slice(run);
}

/// Lays one write over the bytes of its object from `offset` on.
fn lay_one(write: &Write, offset: u32, into: &mut [u8])
    ensures { (k : ℕ) → k < length into.old → slice_index into.new k ≡ byte_under write.now offset k (slice_index into.old k) }
{
    let run = write.bytes();
    let skipped = offset.saturating_sub(write.offset()) as usize;
    let place = write.offset().saturating_sub(offset) as usize;
    if skipped < run.len() && place < into.len() {
        let len = (run.len() - skipped).min(into.len() - place);
        replace(into, place, &run[skipped..skipped + len]);
    }
}

/// Lays the writes to an object, the oldest first, over its bytes from `offset` on. Each write is looked at
/// once; no memory is taken.
pub fn lay(writes: &[Write], object: u32, offset: u32, into: &mut [u8])
    ensures { into.new ≡ bytes_under writes.now object offset into.old }
{
    for write in writes {
        if write.object() == object {
            lay_one(write, offset, into);
        }
    }
}
