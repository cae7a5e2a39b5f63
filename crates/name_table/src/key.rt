//! Names as keys of a table.

ghost use Rattle.std.proofs.Common.{ap};
ghost use Rattle.std.specs.Prelude.{◌≡◌, ◌∷◌, [], IfOk, bytes_eq};
ghost use Rattle.std.specs.Cmp as Cmp;
ghost use Rattle.std.specs.Cmp.{on_equiv, on_per};
ghost use Rattle.std.specs.Cmp.Lexicographic.{bytes_decides, nat_list_eq_equiv};

use indexmap::Equivalent;
use lx_types::NoMemory;
use smallvec::SmallVec;
use std::alloc::Global;
use std::hash::{Hash, Hasher};

/// The most bytes of a key that take no memory of their own, as those of a name.
const IN_PLACE: usize = 16;

/// A name that a table owns. Its bytes go to the hasher in one call, those of a list would go one by one.
#[derive(Drop)]
pub struct NameKey {
    pub bytes: SmallVec<u8, IN_PLACE>,
}

impl NameKey {
    /// The key of a name.
    pub fn of(alloc: Global, name: &[u8]) -> Result<NameKey, NoMemory>
        ensures { IfOk result (λ key. key.bytes.items ≡ name.now) }
    {
        let bytes = SmallVec::from_slice(alloc, name)?;
        Ok(NameKey { bytes })
    }
}

impl PartialEq for NameKey {
    ghost eq = { λ x y. bytes_eq x.bytes.items y.bytes.items };

    ghost laws = { on_per (λ x. x.bytes.items) (Cmp.partial_equiv_from_equiv nat_list_eq_equiv) };

    fn eq(&self, other: &NameKey) -> bool {
        self.bytes.as_slice() == other.bytes.as_slice()
    }
}

impl Eq for NameKey {
    ghost laws = { on_equiv (λ x. x.bytes.items) nat_list_eq_equiv };
}

impl Hash for NameKey {
    ghost hash_input = { λ k. k.bytes.items ∷ [] };

    ghost respects_eq = { λ x y same. ap (λ bytes. bytes ∷ []) ((bytes_decides x.bytes.items y.bytes.items).0 same) };

    fn hash<H: Hasher>(&self, state: &mut H) {
        state.write(self.bytes.as_slice());
    }
}

/// A name that a table is asked for, or that is lent to it as a key.
#[derive(Clone, Copy)]
pub struct NameQuery<'a> {
    pub bytes: &'a [u8],
}

impl PartialEq for NameQuery<'_> {
    ghost eq = { λ x y. bytes_eq x.bytes.now y.bytes.now };

    ghost laws = { on_per (λ x. x.bytes.now) (Cmp.partial_equiv_from_equiv nat_list_eq_equiv) };

    fn eq(&self, other: &NameQuery<'_>) -> bool {
        self.bytes == other.bytes
    }
}

impl Eq for NameQuery<'_> {
    ghost laws = { on_equiv (λ x. x.bytes.now) nat_list_eq_equiv };
}

impl Hash for NameQuery<'_> {
    ghost hash_input = { λ q. q.bytes.now ∷ [] };

    ghost respects_eq = { λ x y same. ap (λ bytes. bytes ∷ []) ((bytes_decides x.bytes.now y.bytes.now).0 same) };

    fn hash<H: Hasher>(&self, state: &mut H) {
        state.write(self.bytes);
    }
}

impl Equivalent<NameKey> for NameQuery<'_> {
    ghost equivalent = { λ q k. bytes_eq q.bytes.now k.bytes.items };

    ghost respects_hash = { λ q k same. ap (λ bytes. bytes ∷ []) ((bytes_decides q.bytes.now k.bytes.items).0 same) };

    ghost respects_eq = { λ q x y. nat_list_eq_equiv.congr q.bytes.now x.bytes.items y.bytes.items };

    fn equivalent(&self, key: &NameKey) -> bool {
        self.bytes == key.bytes.as_slice()
    }
}

impl<'k> Equivalent<NameQuery<'k>> for NameQuery<'_> {
    ghost equivalent = { λ q k. bytes_eq q.bytes.now k.bytes.now };

    ghost respects_hash = { λ q k same. ap (λ bytes. bytes ∷ []) ((bytes_decides q.bytes.now k.bytes.now).0 same) };

    ghost respects_eq = { λ q x y. nat_list_eq_equiv.congr q.bytes.now x.bytes.now y.bytes.now };

    fn equivalent(&self, key: &NameQuery<'k>) -> bool {
        self.bytes == key.bytes
    }
}
