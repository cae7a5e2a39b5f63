//! The one list type of the public surfaces: contracts see it as a list.

ghost use Rattle.std.specs.Prelude.{◌≡◌, ◌∷◌, ◌++◌, [], MatchResult};
ghost use Rattle.std.specs.Cmp.Lexicographic.{pointwise, lists_per};

use crate::{Name, NoMemory};
use std::alloc::Global;
use std::marker::Model;

/// A list of items.
pub struct Seq<T> {
    vec: Vec<T>,
}

/// A list of bytes.
pub type Bytes = Seq<u8>;

/// A list of numbers below 2^32.
pub type Numbers = Seq<u32>;

/// A list of names.
pub type Names = Seq<Name>;

impl<T> Model for Seq<T> {
    ghost use Rattle.std.specs.Prelude.{List};

    ghost Value = { List T };

    ghost view = { λ s. s.vec.items };
}

// A list is dropped by a call, which is proved once, and not taken apart and proved anew in each crate that drops one.
impl<T: Drop> Drop for Seq<T> {
    fn drop(self) {
        let Seq { vec } = self;
        drop(vec);
    }
}

impl<T> Seq<T> {
    /// The empty list. It takes no memory.
    pub fn new(alloc: Global) -> Seq<T>
        ensures { result ≡ [] }
    {
        Seq {
            vec: Vec::new(alloc),
        }
    }

    /// The items of `vec`, in their order. It takes no memory.
    pub fn from_vec(vec: Vec<T>) -> Seq<T>
        ensures { result ≡ vec.items }
    {
        Seq { vec }
    }

    /// The items as a slice.
    pub fn as_slice(&self) -> &[T]
        ensures { result.now ≡ self.now }
    {
        self.vec.as_slice()
    }

    /// The items as the `Vec` that holds them. It takes no memory.
    pub fn into_vec(self) -> Vec<T>
        ensures { result.items ≡ self }
    {
        let Seq { vec } = self;
        vec
    }
}

impl<T: Drop> Seq<T> {
    /// Adds `item` at the end. Where it finds no memory the list is as it was.
    pub fn push(&mut self, item: T) -> Result<(), NoMemory>
        ensures { MatchResult result
            (λ _. self.new ≡ self.old ++ item ∷ []) (λ _. self.new ≡ self.old) }
    {
        match self.vec.push(item) {
            Ok(()) => Ok(()),
            Err(_) => Err(NoMemory),
        }
    }
}

impl<T: PartialEq> PartialEq for Seq<T> {
    ghost eq = { λ a b. pointwise T.eq a b };

    ghost laws = { lists_per T.laws };

    fn eq(&self, other: &Self) -> bool {
        self.as_slice() == other.as_slice()
    }
}
