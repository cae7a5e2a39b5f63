//! Groups that have logical segments of other groups, or logical segments of different flags.

ghost use Rattle.std.specs.Prelude.{◌≡◌, ◌<◌, ℕ, None, Some, All, map, min, fold, length, get_or, true, false, IfOk};
ghost use Rattle.std.specs.List.{range_with_len};
ghost use Rattle.lx_types.specs.Answers.{Answers};
ghost use Rattle.link_model.specs.declared.refusals.LayRefusal.TheVariants.{GroupSplit};
ghost use Rattle.seg_merge.specs.Splits.{differ, with_flags, split_group, marked_group, AreFlagged, AreMarked, HaveFlags, AreSplit, ChecksGroups};

use link_model::LayRefusal;
use lx_types::{Fail, Name, NoMemory};
use seg_parts::GroupNames;
use std::alloc::Global;

fn differs(known: Option<u32>, flags: u32) -> bool
    ensures { result ≡ differ known flags }
{
    match known {
        None => false,
        Some(other) => other != flags,
    }
}

// The least of these places, which are below `count`.
pub fn least(groups: &[usize], count: usize) -> usize
    ensures { result ≡ fold (λ (a : ℕ) (g : ℕ). min a g) count groups.now }
{
    let mut first = count;
    for group in groups {
        first = usize::min(first, *group);
    }
    first
}

fn flag_all(known: &mut Vec<Option<u32>>, groups: &[usize], flags: u32)
    requires { All (λ g. g < length known.old.items) groups.now }
    ensures { AreFlagged flags groups.now known.old.items known.new.items }
{
    for group in groups {
        if known[*group].is_none() {
            known[*group] = Some(flags);
        }
    }
}

fn mark_all(
    split: &mut Vec<bool>,
    known: &[Option<u32>],
    groups: &[usize],
    first: usize,
    flags: u32,
)
    requires split { All (λ g. g < length split.old.items) groups.now }
    requires known { All (λ g. g < length known.now) groups.now }
    ensures { AreMarked flags first known.now groups.now split.old.items split.new.items }
{
    for group in groups {
        if first < *group || differs(known[*group], flags) {
            split[*group] = true;
        }
    }
}

fn no_flags(alloc: Global, count: usize) -> Result<Vec<Option<u32>>, NoMemory>
    ensures { IfOk result (λ known. known.items ≡ map (λ _. None) (range_with_len 0 count)) }
{
    let mut known = Vec::new(alloc);
    for _place in 0..count {
        known.push(None)?;
    }
    Ok(known)
}

fn no_marks(alloc: Global, count: usize) -> Result<Vec<bool>, NoMemory>
    ensures { IfOk result (λ split. split.items ≡ map (λ _. false) (range_with_len 0 count)) }
{
    let mut split = Vec::new(alloc);
    for _place in 0..count {
        split.push(false)?;
    }
    Ok(split)
}

/// The flags of each group's first logical segment.
pub fn flags_of_groups(
    alloc: Global,
    lists: &[Vec<usize>],
    flags: &[u32],
    count: usize,
) -> Result<Vec<Option<u32>>, NoMemory>
    requires one_each { length flags.now ≡ length lists.now }
    requires below { All (λ v. All (λ g. g < count) v.items) lists.now }
    ensures { IfOk result (λ known. HaveFlags count (with_flags (map (λ v. v.items) lists.now) flags.now) known.items) }
{
    let mut known = no_flags(alloc, count)?;
    for (place, own) in lists.iter().enumerate() {
        flag_all(&mut known, own.as_slice(), flags[place]);
    }
    Ok(known)
}

// Whether each group is split.
fn splits_of(
    alloc: Global,
    lists: &[Vec<usize>],
    flags: &[u32],
    known: &[Option<u32>],
) -> Result<Vec<bool>, NoMemory>
    requires one_each { length flags.now ≡ length lists.now }
    requires below { All (λ v. All (λ g. g < length known.now) v.items) lists.now }
    ensures { IfOk result (λ split. AreSplit (length known.now) known.now (with_flags (map (λ v. v.items) lists.now) flags.now) split.items) }
{
    let mut split = no_marks(alloc, known.len())?;
    for (place, own) in lists.iter().enumerate() {
        let first = least(own.as_slice(), known.len());
        mark_all(&mut split, known, own.as_slice(), first, flags[place]);
    }
    Ok(split)
}

fn group_split(alloc: Global, name: &Name) -> Result<LayRefusal, NoMemory>
    ensures { IfOk result (λ r. r ≡ GroupSplit name.now) }
{
    Ok(LayRefusal::GroupSplit {
        group: name.copied(alloc)?,
    })
}

fn check_marks(alloc: Global, names: &[&Name], split: &[bool]) -> Result<(), Fail<LayRefusal>>
    requires { length split.now ≡ length names.now }
    ensures { Answers result
        (λ _. marked_group (map (λ n. n.now) names.now) split.now ≡ None)
        (λ refusal. marked_group (map (λ n. n.now) names.now) split.now ≡ Some refusal) }
{
    for (place, name) in names.iter().enumerate() {
        if split[place] {
            return Err(Fail::Said(group_split(alloc, name)?));
        }
    }
    Ok(())
}

fn check_marked(
    alloc: Global,
    names: &[&Name],
    lists: &[Vec<usize>],
    flags: &[u32],
) -> Result<(), Fail<LayRefusal>>
    requires one_each { length flags.now ≡ length lists.now }
    requires below { All (λ v. All (λ g. g < length names.now) v.items) lists.now }
    ensures { Answers result
        (λ _. split_group (map (λ n. n.now) names.now) (with_flags (map (λ v. v.items) lists.now) flags.now) ≡ None)
        (λ refusal. split_group (map (λ n. n.now) names.now) (with_flags (map (λ v. v.items) lists.now) flags.now) ≡ Some refusal) }
{
    let known = flags_of_groups(alloc, lists, flags, names.len())?;
    let split = splits_of(alloc, lists, flags, known.as_slice())?;
    check_marks(alloc, names, split.as_slice())
}

/// The first group that has a logical segment of an earlier one, or logical segments of different flags, is refused.
/// `lists` are the places of each logical segment's groups, and `flags` are its flags.
pub(crate) fn check_groups(
    alloc: Global,
    names: &GroupNames<'_>,
    lists: &[Vec<usize>],
    flags: &[u32],
) -> Result<(), Fail<LayRefusal>>
    requires one_each { length flags.now ≡ length lists.now }
    requires below { All (λ v. All (λ g. g < length names.now) v.items) lists.now }
    ensures { ChecksGroups names.now (map (λ v. v.items) lists.now) flags.now result }
{
    check_marked(alloc, names.names(), lists, flags)
}
