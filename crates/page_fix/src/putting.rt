//! The bytes of a source, put into a page.

ghost use Rattle.std.specs.Prelude.{◌≡◌, ◌≤◌, ◌<◌, ◌+◌, ◌-◌, ℕ, length, unwrap_or, slice_index};
ghost use Rattle.lx_types.specs.declared.object.TheConstants.{PAGE_SIZE};
ghost use Rattle.lx_model.specs.Fixed.{patched};

use lx_types::{Fix, PAGE_LEN};

// Puts bytes at a place of a page, as many as there is room for.
fn put_at(page: &mut [u8], at: usize, bytes: &[u8])
    requires page { length page.old ≡ PAGE_SIZE }
    requires at { at ≤ PAGE_SIZE }
    ensures before { (i : ℕ) → i < at → slice_index page.new i ≡ slice_index page.old i }
    ensures there { (i : ℕ) → at ≤ i → i < PAGE_SIZE → i < at + length bytes.now → slice_index page.new i ≡ slice_index bytes.now (i - at) }
    ensures after { (i : ℕ) → at + length bytes.now ≤ i → slice_index page.new i ≡ slice_index page.old i }
{
    let len = bytes.len().min(PAGE_LEN - at);
    page[at..at + len].copy_from_slice(&bytes[..len]);
}

/// Puts the bytes of a source. It begins before the page where the source began in the page before; what does not lie in
/// the page is cut.
pub fn put(page: &mut [u8], fix: &Fix, bytes: &[u8])
    requires { length page.old ≡ PAGE_SIZE }
    ensures { (i : ℕ) → i < PAGE_SIZE → slice_index page.new i
        ≡ unwrap_or (patched (record { offset = fix.now.offset; bytes = bytes.now }) i) (slice_index page.old i) }
{
    let away = fix.offset.unsigned_abs() as usize;
    if fix.offset < 0 {
        put_at(page, 0, &bytes[away.min(bytes.len())..]);
    } else {
        put_at(page, away.min(PAGE_LEN), bytes);
    }
}
