//! What was written to one page.

ghost use Rattle.std.specs.Prelude.{◌≡◌, ◌≤◌, ◌<◌, ◌+◌, ◌-◌, ℕ, None, IfOk, length, replicate, slice_index, slice_index_or};
ghost use Rattle.write_overlay.specs.Layered.{laid_under, put_under};

use lx_types::{NoMemory, PAGE_LEN};
use std::alloc::Global;
use std::marker::Model;

/// The bytes of a page that were written, each as it was written last; none where nothing was.
pub struct Layer {
    bytes: Vec<Option<u8>>,
}

// Dropped by a call, as lists are (`Seq`).
impl Drop for Layer {
    fn drop(self) {
        let Layer { bytes } = self;
        drop(bytes);
    }
}

impl Model for Layer {
    ghost use Rattle.lx_types.specs.declared.limits.TheConstants.{PAGE_LEN};
    ghost use Rattle.std.specs.Prelude.{◌≡◌, List, Option, ℕ, length};

    ghost Value = { List (Option ℕ) };

    ghost view = { λ l. l.bytes.items };

    ghost invariant = { λ l. length l.bytes.items ≡ PAGE_LEN };
}

/// Puts a run at a place of a page.
fn put_run(bytes: &mut [Option<u8>], place: usize, run: &[u8])
    requires { place + length run.now ≤ length bytes.old }
    ensures { (k : ℕ) → slice_index_or bytes.new k None ≡ put_under place run.now k (slice_index_or bytes.old k None) }
{
    for (k, byte) in run.iter().enumerate() {
        bytes[place + k] = Some(*byte);
    }
}

/// Lays what was written, from `from` on, over `len` bytes from a place on.
fn lay_run(bytes: &[Option<u8>], from: usize, place: usize, len: usize, into: &mut [u8])
    requires written { from + len ≤ length bytes.now }
    requires fits { place + len ≤ length into.old }
    ensures { (k : ℕ) → slice_index into.new k ≡ laid_under bytes.now from place len k (slice_index into.old k) }
{
    for k in 0..len {
        into[place + k] = bytes[from + k].unwrap_or(into[place + k]);
    }
}

impl Layer {
    /// Nothing was written.
    pub fn new(alloc: Global) -> Result<Layer, NoMemory>
        ensures { IfOk result (λ layer. layer ≡ replicate PAGE_LEN None) }
    {
        let bytes = vec![in alloc; None; PAGE_LEN]?;
        Ok(Layer { bytes })
    }

    /// Puts a run at a place of the page.
    pub fn put(&mut self, place: usize, run: &[u8])
        requires { place + length run.now ≤ PAGE_LEN }
        ensures { (k : ℕ) → slice_index_or self.new k None ≡ put_under place run.now k (slice_index_or self.old k None) }
    {
        put_run(self.bytes.as_mut_slice(), place, run);
    }

    /// Lays what was written to the page, from `from` on, over `len` bytes from a place on.
    pub fn lay(&self, from: usize, place: usize, len: usize, into: &mut [u8])
        requires written { from + len ≤ PAGE_LEN }
        requires fits { place + len ≤ length into.old }
        ensures { (k : ℕ) → slice_index into.new k ≡ laid_under self.now from place len k (slice_index into.old k) }
    {
        lay_run(self.bytes.as_slice(), from, place, len, into);
    }
}
