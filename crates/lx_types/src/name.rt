//! Names of at most 255 bytes, as the formats' length bytes allow.

ghost use Rattle.std.specs.Prelude.{◌≡◌, ◌<◌, ◌↔◌, [], length, IsTrue, IfOk, bytes_eq};
ghost use Rattle.std.specs.Cmp.{partial_equiv_from_equiv};
ghost use Rattle.std.specs.Cmp.Lexicographic.{nat_list_eq_equiv};
ghost use Rattle.lx_types.specs.Answers.{Answers};
ghost use Rattle.lx_types.specs.Names.{SameModule, IsName, uppercase};

use crate::{Fail, NoMemory};
use smallvec::SmallVec;
use std::alloc::Global;
use std::marker::Model;

/// The most bytes of a name that lie in the value itself: as many as beside a length fit where a longer one keeps its pointer. Most
/// names are as short, and take no memory of their own.
const IN_PLACE: usize = 16;

/// A name: 0 to 255 bytes of any value.
pub struct Name {
    bytes: SmallVec<u8, IN_PLACE>,
}

/// More than 255 bytes were given for a name.
#[derive(Clone, Copy, Drop)]
pub struct NameLong;

impl Model for Name {
    ghost use Rattle.std.specs.Prelude.{List, ℕ};

    ghost Value = { List ℕ };

    ghost use Rattle.lx_types.specs.Names.{IsName};

    ghost view = { λ n. n.bytes.items };

    ghost invariant = { λ n. IsName n.bytes.items };
}

// Dropped by a call, as lists are (`Seq`).
impl Drop for Name {
    fn drop(self) {
        let Name { bytes } = self;
        drop(bytes);
    }
}

impl Name {
    /// The name without bytes. It takes no memory.
    pub fn empty(alloc: Global) -> Name
        ensures { result ≡ [] }
    {
        Name {
            bytes: SmallVec::new(alloc),
        }
    }

    /// The name with these bytes. `NameLong` comes exactly where there are more than 255.
    pub fn of(alloc: Global, bytes: &[u8]) -> Result<Name, Fail<NameLong>>
        ensures { Answers result (λ name. name ≡ bytes.now) (λ _. 255 < length bytes.now) }
    {
        if bytes.len() > 255 {
            return Err(Fail::Said(NameLong));
        }
        Ok(Name::of_short(alloc, bytes)?)
    }

    /// The name with these bytes, where it is known that there are at most 255.
    pub fn of_short(alloc: Global, bytes: &[u8]) -> Result<Name, NoMemory>
        requires { IsName bytes.now }
        ensures { IfOk result (λ name. name ≡ bytes.now) }
    {
        let bytes = SmallVec::from_slice(alloc, bytes)?;
        Ok(Name { bytes })
    }

    /// The name once more.
    pub fn copied(&self, alloc: Global) -> Result<Name, NoMemory>
        ensures { IfOk result (λ copy. copy ≡ self.now) }
    {
        Name::of_short(alloc, self.bytes())
    }

    /// The bytes of the name.
    pub fn bytes(&self) -> &[u8]
        ensures same { result.now ≡ self.now }
        ensures short { IsName self.now }
    {
        self.bytes.as_slice()
    }

    /// The name with its ASCII letters in upper case, as module names are written.
    pub fn to_uppercase(&self, alloc: Global) -> Result<Name, NoMemory>
        ensures letters { IfOk result (λ name. name ≡ uppercase self.now) }
        ensures short { IfOk result (λ name. IsName name) }
    {
        let mut bytes = SmallVec::from_slice(alloc, self.bytes())?;
        bytes.as_mut_slice().make_ascii_uppercase();
        Ok(Name { bytes })
    }

    /// Whether the two mean the same module: ASCII letters are compared in upper case.
    pub fn same_module(&self, other: &Name) -> bool
        ensures { IsTrue result ↔ SameModule self.now other.now }
    {
        self.bytes
            .as_slice()
            .eq_ignore_ascii_case(other.bytes.as_slice())
    }
}

impl PartialEq for Name {
    ghost eq = { λ a b. bytes_eq a b };

    ghost laws = { partial_equiv_from_equiv nat_list_eq_equiv };

    fn eq(&self, other: &Self) -> bool {
        self.bytes.as_slice() == other.bytes.as_slice()
    }
}
