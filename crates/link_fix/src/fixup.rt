//! Fixups at their places, with all that their values need but bases.

ghost use Rattle.std.specs.Prelude.{◌≡◌, None};
ghost use Rattle.link_model.specs.Fixups.{fix_refusal};
ghost use Rattle.link_fix.specs.Shown.{shown, placed_shown};
ghost use Rattle.link_fix.specs.Bare.{bare};

use obj_types::FixAt;

/// What a fixup refers to.
#[derive(Clone, Copy)]
pub enum Target {
    /// A place in an object; objects count from 1.
    Internal { object: u32, offset: u32 },
    /// A number.
    Constant { value: u32 },
    /// An entry point of another module, by its import slot, which counts from 0.
    Entry { slot: u32 },
}

/// A fixup at its place in an object, with what it refers to. Modules and objects count from 1; offsets are in bytes.
#[derive(Clone, Copy)]
pub struct PlacedFixup {
    /// The number of its chosen module.
    pub by: u32,
    pub fix: FixAt,
    /// The location's object, and the offset there.
    pub object: u32,
    pub offset: u32,
    /// Whether its segment is 16-bit.
    pub narrow: bool,
    pub target: Target,
    /// The object that its frame names, where it names one.
    pub frame: Option<u32>,
    /// The number that stands in it.
    pub standing: u32,
}

/// What the bytes and the record of a fixup need, once it is not refused: a placed fixup without its module, its segment
/// and its frame, with one number for its displacement and for what stands in its location. A link has one for each fixup
/// at once, so it is small: 28 bytes.
#[derive(Clone, Copy)]
pub struct Fixup {
    /// The location's object, and the offset there.
    pub object: u32,
    pub offset: u32,
    pub target: Target,
    /// What is added to the target's address: the displacement and the number that stands in the location.
    pub added: u32,
    /// The location's kind, from 0 to 13.
    pub loc: u8,
    /// Whether the location is self-relative.
    pub selfrel: bool,
    /// Whether its segment is 16-bit.
    pub narrow: bool,
}

impl PlacedFixup {
    /// What its bytes and its record need.
    pub fn bare(&self) -> Fixup
        ensures shown { shown result ≡ bare (placed_shown self.now) }
        ensures accepted { fix_refusal (placed_shown self.now) ≡ None → fix_refusal (shown result) ≡ None }
    {
        let added = self.fix.disp.wrapping_add(self.standing);
        Fixup {
            object: self.object,
            offset: self.offset,
            target: self.target,
            added,
            loc: self.fix.loc,
            selfrel: self.fix.selfrel,
            narrow: self.narrow,
        }
    }
}
