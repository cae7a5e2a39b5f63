//! The parts of a link: the contributions of the chosen modules, in order.

ghost use Rattle.std.specs.Prelude.{◌≡◌, ◌++◌, map, filter, not, IfOk, OnOk};
ghost use Rattle.std.specs.List.{enumerate_from};
ghost use Rattle.link_model.specs.Parts as rules;
ghost use Rattle.link_types.specs.Links.{link_with};
ghost use Rattle.seg_parts.specs.Parts.{shown};
ghost use Rattle.seg_parts.specs.FixedNames.{AreFixed};

use link_model::Origin;
use lx_types::{Name, NoMemory, count};
use obj_types::{COMBINE_STACK, LinkInput, ObjModule, Seg};
use std::alloc::Global;

/// A contribution to a logical segment, or a communal as one ("98h SEGDEF").
#[derive(Clone, Copy)]
pub struct Part<'a> {
    pub origin: Origin,
    pub name: &'a Name,
    pub class: &'a Name,
    /// As in SEGDEF, as is `combine`.
    pub align: u8,
    pub combine: u8,
    /// Whether it has 32-bit code or data (use32).
    pub wide: bool,
    /// The length in bytes.
    pub len: u32,
}

/// The part that a segment of a module makes.
pub fn part_of<'a>(module: u32, index: u32, seg: &'a Seg) -> Part<'a>
    ensures { shown result ≡ rules.of_seg «module» index seg.entry.now }
{
    Part {
        origin: Origin::Segment { module, index },
        name: &seg.name,
        class: &seg.class,
        align: seg.align,
        combine: seg.combine,
        wide: seg.wide,
        len: seg.len,
    }
}

fn add_contributions<'a>(
    found: &mut Vec<Part<'a>>,
    module: u32,
    segs: &'a [Seg],
) -> Result<(), NoMemory>
    ensures { OnOk result (map shown found.new.items ≡ map shown found.old.items
        ++ map (λ q. rules.of_seg «module» q.0 q.1) (filter (λ q. not q.1.debug) (enumerate_from 1 segs.entry.now))) }
{
    for (place, seg) in segs.iter().enumerate() {
        if !seg.debug {
            found.push(part_of(module, count(place + 1)?, seg))?;
        }
    }
    Ok(())
}

/// The contributions of these modules, in order; debug segments are dropped.
pub(crate) fn contributions_of<'a>(
    alloc: Global,
    input: &'a LinkInput,
    modules: &[&'a ObjModule],
) -> Result<Vec<Part<'a>>, NoMemory>
    ensures { IfOk result (λ found. map shown found.items ≡ rules.contributions (link_with input.entry.now modules.entry.now)) }
{
    let mut found = Vec::new(alloc);
    for (place, object) in modules.iter().enumerate() {
        add_contributions(&mut found, count(place + 1)?, object.segs.as_slice())?;
    }
    Ok(found)
}

/// The names that a linker gives of itself.
pub struct FixedNames {
    /// `c_common`, of class `BSS`: the segment of the near communals.
    pub near: Name,
    pub bss: Name,
    /// `FAR_BSS`, of the same class: the segment of the far communals.
    pub far: Name,
    /// `STACK`, of the same class.
    pub stack: Name,
}

// Dropped by a call, as lists are (`Seq`).
impl Drop for FixedNames {
    fn drop(self) {
        let FixedNames {
            near,
            bss,
            far,
            stack,
        } = self;
        drop(near);
        drop(bss);
        drop(far);
        drop(stack);
    }
}

/// The names that a linker gives of itself.
pub fn fixed_names(alloc: Global) -> Result<FixedNames, NoMemory>
    ensures { IfOk result AreFixed }
{
    Ok(FixedNames {
        near: Name::of_short(alloc, b"c_common")?,
        bss: Name::of_short(alloc, b"BSS")?,
        far: Name::of_short(alloc, b"FAR_BSS")?,
        stack: Name::of_short(alloc, b"STACK")?,
    })
}

/// Whether a part is of combine type stack.
pub(crate) fn is_stack(part: &Part<'_>) -> bool
    ensures { result ≡ rules.is_stack (shown part.now) }
{
    match part.origin {
        Origin::OwnStack => true,
        _ => part.combine == COMBINE_STACK,
    }
}
