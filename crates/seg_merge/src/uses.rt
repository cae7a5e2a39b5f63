//! Each logical segment and each group has one use: all its parts are use32, or none is.

ghost use Rattle.std.specs.Prelude.{◌≡◌, ◌<◌, ◌==◌, [], None, Some, All, map, length, get_or, if◌then◌else◌, true, false, IfOk};
ghost use Rattle.std.specs.List.{list_any, range_with_len};
ghost use Rattle.link_model.specs.declared.refusals.LayRefusal.TheVariants.{UseMixed};
ghost use Rattle.seg_parts.specs.LogicalSegments.{heads_of};
ghost use Rattle.seg_merge.specs.Uses.{conflicts, mixed_by, AreSet, AddsAfter, ChecksUse};

use crate::membership::groups_at;
use link_model::LayRefusal;
use lx_types::{Fail, Name, NoMemory};
use seg_parts::LogicalSegments;
use std::alloc::Global;

/// Whether the parts so far of each logical segment, and of each group, are use32.
pub struct Uses {
    segments: Vec<Option<bool>>,
    groups: Vec<Option<bool>>,
}

// Dropped by a call, as lists are (`Seq`).
impl Drop for Uses {
    fn drop(self) {
        let Uses { segments, groups } = self;
        drop(segments);
        drop(groups);
    }
}

fn none_yet(alloc: Global, count: usize) -> Result<Vec<Option<bool>>, NoMemory>
    ensures { IfOk result (λ uses. uses.items ≡ map (λ _. None) (range_with_len 0 count)) }
{
    let mut uses = Vec::new(alloc);
    for _place in 0..count {
        uses.push(None)?;
    }
    Ok(uses)
}

fn differs(known: Option<bool>, wide: bool) -> bool
    ensures { result ≡ conflicts wide known }
{
    match known {
        None => false,
        Some(other) => other != wide,
    }
}

// Whether one of these groups has the other use.
fn any_differs(uses: &[Option<bool>], groups: &[usize], wide: bool) -> bool
    requires { All (λ g. g < length uses.now) groups.now }
    ensures { result ≡ list_any (λ g. conflicts wide (get_or uses.now g None)) groups.now }
{
    for group in groups {
        if differs(uses[*group], wide) {
            return true;
        }
    }
    false
}

fn set_all(uses: &mut Vec<Option<bool>>, groups: &[usize], wide: bool)
    requires { All (λ g. g < length uses.old.items) groups.now }
    ensures { AreSet wide groups.now uses.old.items uses.new.items }
{
    for group in groups {
        uses[*group] = Some(wide);
    }
}

impl Uses {
    // Whether a part of this use is mixed with others of its logical segment or of these groups of it.
    fn is_mixed(&self, segment: usize, groups: &[usize], wide: bool) -> bool
        requires segment { segment < length self.now.segments.items }
        requires groups { All (λ g. g < length self.now.groups.items) groups.now }
        ensures { result ≡ mixed_by wide groups.now self.now.groups.items (get_or self.now.segments.items segment None) }
    {
        match self.segments[segment] {
            None => any_differs(self.groups.as_slice(), groups, wide),
            Some(other) => other != wide,
        }
    }

    // Adds a part of this use.
    fn add(&mut self, segment: usize, groups: &[usize], wide: bool)
        requires segment { segment < length self.old.segments.items }
        requires groups { All (λ g. g < length self.old.groups.items) groups.now }
        ensures { AddsAfter wide segment groups.now self.old.segments.items self.old.groups.items self.new.segments.items self.new.groups.items
            (get_or self.old.segments.items segment None) }
    {
        if self.segments[segment].is_none() {
            self.segments[segment] = Some(wide);
            set_all(&mut self.groups, groups, wide);
        }
    }
}

fn mixed(alloc: Global, name: &Name) -> Result<LayRefusal, NoMemory>
    ensures { IfOk result (λ r. r ≡ UseMixed name.now) }
{
    Ok(LayRefusal::UseMixed {
        seg: name.copied(alloc)?,
    })
}

/// The first part whose use32 differs from that of an earlier part of its logical segment or of one of its groups is
/// refused. `groups` are the places of each logical segment's groups, of which there are `count`.
pub(crate) fn check_use(
    alloc: Global,
    segments: &LogicalSegments<'_>,
    groups: &[Vec<usize>],
    count: usize,
) -> Result<(), Fail<LayRefusal>>
    requires one_each { length groups.now ≡ length (heads_of segments.now) }
    requires below { All (λ v. All (λ g. g < count) v.items) groups.now }
    ensures { ChecksUse segments.now (map (λ v. v.items) groups.now) count result }
{
    let mut uses = Uses {
        segments: none_yet(alloc, groups.len())?,
        groups: none_yet(alloc, count)?,
    };
    for (place, part) in segments.parts().iter().enumerate() {
        let number = segments.numbers()[place];
        let own = groups_at(groups, number);
        if uses.is_mixed(number, own, part.wide) {
            return Err(Fail::Said(mixed(alloc, part.name)?));
        }
        uses.add(number, own, part.wide);
    }
    Ok(())
}
