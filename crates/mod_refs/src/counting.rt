//! Counts by module, for one root more.

ghost use Rattle.std.specs.Prelude.{◌≡◌, ◌≤◌, ◌<◌, ◌+◌, ◌-◌, ◌^◌, ◌∷◌, ◌++◌, ◌==◌, [], All, IfOk, filter, length, nat_lt, if◌then◌else◌, replicate, slice_index, slice_set};
ghost use Rattle.mod_refs.specs.Counts.{AreApart, AreAttached, AreCounted};
ghost use Rattle.lx_types.specs.declared.limits.TheConstants.{MAX_MODULES};

use arrayvec::ArrayVec;
use lx_types::{MAX_MODULES_LEN, NoMemory};
use std::alloc::Global;

/// A number for each module, or some modules: a library has 64 at most.
pub type Modules = ArrayVec<u32, MAX_MODULES_LEN>;

/// The count 0 for each of so many modules.
pub fn zeros(modules: u32) -> Modules
    requires { modules ≤ MAX_MODULES }
    ensures { result.items ≡ replicate modules 0 }
{
    let mut counts = ArrayVec::new();
    for _ in 0..modules {
        counts.push(0);
    }
    counts
}

/// The same counts once more.
pub fn copied(counts: &[u32]) -> Modules
    requires { length counts.now ≤ MAX_MODULES }
    ensures { result.items ≡ counts.now }
{
    let mut copy = ArrayVec::new();
    for count in counts {
        copy.push(*count);
    }
    copy
}

/// Puts a module that has no count after those that are attached.
fn attach(k: u32, reached: &[u32], attached: &mut Modules)
    requires few { length reached.now ≤ MAX_MODULES }
    requires within { k < length reached.now }
    requires uncounted { slice_index reached.now k ≡ 0 }
    requires attached { AreAttached reached.now attached.old.items }
    ensures { attached.new.items ≡ attached.old.items ++ k ∷ [] }
{
    attached.push(k);
}

/// Counts one more of module `k`.
pub fn add_one(k: u32, counts: &mut Modules)
    requires within { k < length counts.old.items }
    requires small { slice_index counts.old.items k < 2 ^ 32 - 1 }
    ensures { counts.new.items ≡ slice_set counts.old.items k (slice_index counts.old.items k + 1) }
{
    counts[k as usize] += 1;
}

/// Counts one root more that reaches module `k`. A module that had no count is attached.
fn count_one(k: u32, reached: &mut Modules, attached: &mut Modules)
    requires within { k < length reached.old.items }
    requires small { slice_index reached.old.items k < 2 ^ 32 - 1 }
    requires attached { AreAttached reached.old.items attached.old.items }
    ensures reached { reached.new.items ≡ slice_set reached.old.items k (slice_index reached.old.items k + 1) }
    ensures attached { attached.new.items ≡ (if slice_index reached.old.items k == 0 then attached.old.items ++ k ∷ [] else attached.old.items) }
    ensures kept { AreAttached reached.new.items attached.new.items }
{
    if reached[k as usize] == 0 {
        attach(k, reached.as_slice(), attached);
    }
    add_one(k, reached);
}

/// Counts one root more that reaches the modules of an order, and attaches those that had no count, in
/// their order.
pub fn count_in(order: &[u32], reached: &mut Modules, attached: &mut Modules)
    requires within { All (λ k. k < length reached.old.items) order.now }
    requires once { AreApart order.now }
    requires small { All (λ k. slice_index reached.old.items k < 2 ^ 32 - 1) order.now }
    requires attached { AreAttached reached.old.items attached.old.items }
    ensures reached { AreCounted order.now reached.old.items reached.new.items }
    ensures attached { attached.new.items ≡ attached.old.items ++ filter (λ k. slice_index reached.old.items k == 0) order.now }
    ensures kept { AreAttached reached.new.items attached.new.items }
{
    for k in order {
        count_one(*k, reached, attached);
    }
}

/// Those modules of an order that have no count, in the order.
pub fn uncounted(alloc: Global, order: &[u32], reached: &[u32]) -> Result<Vec<u32>, NoMemory>
    requires { All (λ k. k < length reached.now) order.now }
    ensures { IfOk result (λ ms. ms.items ≡ filter (λ k. slice_index reached.now k == 0) order.now) }
{
    let mut modules = Vec::new(alloc);
    for k in order {
        if reached[*k as usize] == 0 {
            modules.push(*k)?;
        }
    }
    Ok(modules)
}

/// Counts one less of module `k`.
pub fn take_one(k: u32, counts: &mut Modules)
    requires { 0 < slice_index counts.old.items k }
    ensures { counts.new.items ≡ slice_set counts.old.items k (slice_index counts.old.items k - 1) }
{
    counts[k as usize] -= 1;
}

/// Counts one root less that reaches the modules of an order.
pub fn count_out(order: &[u32], reached: &mut Modules)
    requires counted { All (λ k. 0 < slice_index reached.old.items k) order.now }
    requires once { AreApart order.now }
    ensures { AreCounted order.now reached.new.items reached.old.items }
{
    for k in order {
        take_one(*k, reached);
    }
}

/// Whether a module has a count.
fn is_counted(reached: &[u32], k: u32) -> bool
    ensures { result ≡ nat_lt 0 (slice_index reached.now k) }
{
    match reached.get(k as usize) {
        Some(count) => *count > 0,
        None => false,
    }
}

/// Keeps of what is attached what has a count.
pub fn keep_counted(reached: &[u32], attached: &mut Modules)
    ensures { attached.new.items ≡ filter (λ k. nat_lt 0 (slice_index reached.now k)) attached.old.items }
{
    attached.retain(|k| is_counted(reached, *k));
}
