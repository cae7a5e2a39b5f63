//! Whether two things that are told are one.

ghost use Rattle.std.specs.Prelude.{◌≡◌, ◌↔◌, IsTrue};

use load_model::{Call, CallKind, Fresh, Gone, How, Place};
use lx_types::{EntryKey, Name, PageId, ResSpot, Seq};

/// Values of which it can be said whether two are the same.
pub trait Same {
    /// Whether this is the same as the other.
    fn is_same(&self, other: &Self) -> bool
        ensures { IsTrue result ↔ (self.now ≡ other.now) };
}

// Whether two lists have the same items in the same order.
fn same_items<T: Same>(one: &[T], other: &[T]) -> bool
    ensures { IsTrue result ↔ (one.now ≡ other.now) }
{
    if one.len() != other.len() {
        return false;
    }
    for (place, item) in one.iter().enumerate() {
        if !item.is_same(&other[place]) {
            return false;
        }
    }
    true
}

impl<T: Same> Same for Seq<T> {
    fn is_same(&self, other: &Seq<T>) -> bool {
        same_items(self.as_slice(), other.as_slice())
    }
}

impl Same for u8 {
    fn is_same(&self, other: &u8) -> bool {
        *self == *other
    }
}

impl Same for u32 {
    fn is_same(&self, other: &u32) -> bool {
        *self == *other
    }
}

impl Same for Name {
    fn is_same(&self, other: &Name) -> bool {
        self == other
    }
}

impl Same for PageId {
    fn is_same(&self, other: &PageId) -> bool {
        self.object == other.object && self.page == other.page
    }
}

impl Same for ResSpot {
    fn is_same(&self, other: &ResSpot) -> bool {
        self.object == other.object && self.offset == other.offset && self.len == other.len
    }
}

impl Same for How {
    fn is_same(&self, other: &How) -> bool {
        match (self, other) {
            (How::Start, How::Start) | (How::Load, How::Load) => true,
            _ => false,
        }
    }
}

impl Same for CallKind {
    fn is_same(&self, other: &CallKind) -> bool {
        match (self, other) {
            (CallKind::Init, CallKind::Init)
            | (CallKind::Term, CallKind::Term)
            | (CallKind::Main, CallKind::Main) => true,
            _ => false,
        }
    }
}

impl Same for Call {
    fn is_same(&self, other: &Call) -> bool {
        self.kind.is_same(&other.kind)
            && self.serial == other.serial
            && self.module == other.module
            && self.address == other.address
    }
}

impl Same for Gone {
    fn is_same(&self, other: &Gone) -> bool {
        self.serial == other.serial && self.module == other.module
    }
}

impl Same for Fresh {
    fn is_same(&self, other: &Fresh) -> bool {
        self.serial == other.serial
            && self.module == other.module
            && self.bases.is_same(&other.bases)
    }
}

impl Same for EntryKey {
    fn is_same(&self, other: &EntryKey) -> bool {
        match (self, other) {
            (EntryKey::Ordinal(one), EntryKey::Ordinal(another)) => one == another,
            (EntryKey::Named(one), EntryKey::Named(another)) => one.is_same(another),
            _ => false,
        }
    }
}

impl Same for Place {
    fn is_same(&self, other: &Place) -> bool {
        self.module.is_same(&other.module)
            && self.object == other.object
            && self.offset == other.offset
            && self.len == other.len
    }
}
