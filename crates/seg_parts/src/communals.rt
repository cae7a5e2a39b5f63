//! Communals as parts.

ghost use Rattle.std.specs.Prelude.{◌≡◌, ◌++◌, ◌∷◌, ◌&&◌, [], true, map, find, option_copied, if◌then◌else◌, IfOk, OnOk};
ghost use Rattle.std.specs.List.{list_any, enumerate_from};
ghost use Rattle.link_model.specs.Parts as rules;
ghost use Rattle.link_model.specs.Groups.{is_near_bss, is_far_bss};
ghost use Rattle.link_model.specs.Order.{own_stack};
ghost use Rattle.seg_parts.specs.Parts.{shown};
ghost use Rattle.seg_parts.specs.Communals.{is_in, is_of, is_other, followed, far_followed, communal_of, wants_stack};
ghost use Rattle.seg_parts.specs.FixedNames.{AreFixed};

use crate::logical_segments::{SegmentName, name_of};
use crate::parts::{FixedNames, Part, is_stack};
use indexmap::IndexSet;
use link_model::Origin;
use lx_types::{Name, NoMemory, count};
use obj_types::{
    ALIGN_DOUBLEWORD, ALIGN_PARAGRAPH, COMBINE_COMMON, COMBINE_PRIVATE, COMBINE_PUBLIC, Common,
    ModKind,
};

fn is_public(part: &Part<'_>, name: &Name, class: &Name) -> bool
    ensures { result ≡ is_of name.now class.now (shown part.now) }
{
    part.combine != COMBINE_PRIVATE
        && part.combine != COMBINE_COMMON
        && *part.name == *name
        && *part.class == *class
}

fn is_in(names: &IndexSet<SegmentName<'_>>, part: &Part<'_>) -> bool
    ensures { result ≡ is_in names.now.keys (shown part.now) }
{
    names.contains(&name_of(part))
}

fn is_other(dgroup: &IndexSet<SegmentName<'_>>, name: &Name, class: &Name, part: &Part<'_>) -> bool
    ensures { result ≡ is_other dgroup.now.keys (is_of name.now class.now) (shown part.now) }
{
    is_in(dgroup, part) && !is_public(part, name, class)
}

fn first_other<'a>(
    contributions: &'a [Part<'a>],
    dgroup: &IndexSet<SegmentName<'_>>,
    name: &Name,
    class: &Name,
) -> Option<&'a Part<'a>>
    ensures { option_copied result ≡ find (λ p. is_other dgroup.now.keys (is_of name.now class.now) (shown p)) contributions.entry.now }
{
    contributions
        .iter()
        .find(|part| is_other(dgroup, name, class, part))
}

// Whether the first contribution of DGROUP that is not of this name and class is use32.
fn follows(
    contributions: &[Part<'_>],
    dgroup: &IndexSet<SegmentName<'_>>,
    name: &Name,
    class: &Name,
    otherwise: bool,
) -> bool
    ensures { result ≡ followed dgroup.now.keys (is_of name.now class.now) (map shown contributions.now) otherwise }
{
    match first_other(contributions, dgroup, name, class) {
        Some(part) => part.wide,
        None => otherwise,
    }
}

/// Whether the near communals are use32, and whether the far ones are.
#[derive(Clone, Copy)]
pub(crate) struct Widths {
    pub near: bool,
    pub far: bool,
}

fn is_far(dgroup: &IndexSet<SegmentName<'_>>, fixed: &FixedNames, part: &Part<'_>) -> bool
    requires { AreFixed fixed.now }
    ensures { result ≡ (is_far_bss (shown part.now) && is_in dgroup.now.keys (shown part.now)) }
{
    is_public(part, &fixed.far, &fixed.far) && is_in(dgroup, part)
}

fn any_far(
    contributions: &[Part<'_>],
    dgroup: &IndexSet<SegmentName<'_>>,
    fixed: &FixedNames,
) -> bool
    requires { AreFixed fixed.now }
    ensures { result ≡ list_any (λ p. is_far_bss (shown p) && is_in dgroup.now.keys (shown p)) contributions.now }
{
    contributions.iter().any(|part| is_far(dgroup, fixed, part))
}

fn far_is_grouped(
    contributions: &[Part<'_>],
    dgroup: &IndexSet<SegmentName<'_>>,
    fixed: &FixedNames,
) -> bool
    requires { AreFixed fixed.now }
    ensures { result ≡ list_any (λ p. is_far_bss p && is_in dgroup.now.keys p) (map shown contributions.now) }
{
    any_far(contributions, dgroup, fixed)
}

/// Communals are use32, but in DGROUP their segment follows the group's first other member.
pub(crate) fn widths_of(
    contributions: &[Part<'_>],
    dgroup: &IndexSet<SegmentName<'_>>,
    fixed: &FixedNames,
    has_near: bool,
) -> Widths
    requires { AreFixed fixed.now }
    ensures near { result.near ≡ followed dgroup.now.keys is_near_bss (map shown contributions.now) true }
    ensures far { result.far ≡ far_followed dgroup.now.keys (map shown contributions.now) (if has_near then result.near else true) }
{
    let near = follows(contributions, dgroup, &fixed.near, &fixed.bss, true);
    let far = if far_is_grouped(contributions, dgroup, fixed) {
        let otherwise = if has_near { near } else { true };
        follows(contributions, dgroup, &fixed.far, &fixed.far, otherwise)
    } else {
        true
    };
    Widths { near, far }
}

fn communal_part<'a>(slot: u32, common: Common, fixed: &'a FixedNames, widths: Widths) -> Part<'a>
    requires { AreFixed fixed.now }
    ensures { shown result ≡ communal_of widths.near widths.far slot common }
{
    let (name, class, wide) = if common.far {
        (&fixed.far, &fixed.far, widths.far)
    } else {
        (&fixed.near, &fixed.bss, widths.near)
    };
    Part {
        origin: Origin::Communal { slot },
        name,
        class,
        align: ALIGN_DOUBLEWORD,
        combine: COMBINE_PUBLIC,
        wide,
        len: common.len,
    }
}

/// Adds the communals, doubleword-aligned.
pub(crate) fn add_communals<'a>(
    parts: &mut Vec<Part<'a>>,
    commons: &[(Name, Common)],
    fixed: &'a FixedNames,
    widths: Widths,
) -> Result<(), NoMemory>
    requires { AreFixed fixed.now }
    ensures { OnOk result (map shown parts.new.items
        ≡ map shown parts.old.items ++ map (λ q. communal_of widths.near widths.far q.0 q.1.1) (enumerate_from 0 commons.now)) }
{
    for (slot, common) in commons.iter().enumerate() {
        parts.push(communal_part(count(slot)?, common.1, fixed, widths))?;
    }
    Ok(())
}

fn own_stack(fixed: &FixedNames) -> Part<'_>
    requires { AreFixed fixed.now }
    ensures { shown result ≡ own_stack }
{
    Part {
        origin: Origin::OwnStack,
        name: &fixed.stack,
        class: &fixed.stack,
        align: ALIGN_PARAGRAPH,
        combine: COMBINE_PRIVATE,
        wide: true,
        len: 0,
    }
}

/// Whether a part of combine type stack is among these ("98h SEGDEF").
pub fn any_stack(parts: &[Part<'_>]) -> bool
    ensures { result ≡ list_any (λ p. rules.is_stack (shown p)) parts.now }
{
    parts.iter().any(is_stack)
}

/// Whether a link of these parts gets a stack segment of its own: a program without a stack segment does.
pub fn wants_stack(kind: ModKind, parts: &[Part<'_>]) -> bool
    ensures { result ≡ wants_stack kind (map shown parts.now) }
{
    match kind {
        ModKind::Program => !any_stack(parts),
        ModKind::Library => false,
    }
}

/// Adds the stack segment of a program that has none, and answers whether it did.
pub fn add_own_stack<'a>(
    parts: &mut Vec<Part<'a>>,
    kind: ModKind,
    fixed: &'a FixedNames,
) -> Result<bool, NoMemory>
    requires { AreFixed fixed.now }
    ensures parts { OnOk result (map shown parts.new.items ≡ map shown parts.old.items
        ++ (if wants_stack kind (map shown parts.old.items) then own_stack ∷ [] else [])) }
    ensures added { IfOk result (λ added. added ≡ wants_stack kind (map shown parts.old.items)) }
{
    let wanted = wants_stack(kind, parts.as_slice());
    if wanted {
        parts.push(own_stack(fixed))?;
    }
    Ok(wanted)
}
