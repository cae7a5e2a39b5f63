//! From groups of repeated bytes to a page.

ghost use Rattle.std.specs.Prelude.{◌≡◌, ◌+◌, ◌*◌, ◌≤◌, ◌<◌, ◌^◌, ◌++◌, length, take, option_map, IfOk, IfSome};
ghost use Rattle.std.specs.List.{repeat};
ghost use Rattle.lx_types.specs.Answers.{Reads, told_as};
ghost use Rattle.lx_model.specs.Iterated.{group_fields, group_at};
ghost use Rattle.lx_fields.specs.Faults.{short_fault};
ghost use Rattle.lx_iter.specs.Expansion.{refusal, group_of, Expands};

use crate::refusal::IterRefusal;
use lx_fields::{Fields, Short};
use lx_types::{PAGE_SIZE, PageBytes};

/// Bytes, and how many times they stand there.
#[derive(Clone, Copy)]
pub struct Group<'a> {
    pub times: u16,
    pub bytes: &'a [u8],
}

// A count word, a length word, and as many bytes.
#[tactic(auto, unfolding(lx_model::specs::Iterated::group_fields))]
fn group_fields<'a>(fields: &mut Fields<'a>) -> Result<Group<'a>, Short>
    ensures read { Reads group_of (told_as short_fault) result group_fields fields.old fields.new }
    ensures short { IfOk result (λ group. length group.bytes.now < 2 ^ 16) }
{
    let times = fields.word()?;
    let len = fields.word()?;
    let bytes = fields.bytes(usize::from(len))?;
    Ok(Group { times, bytes })
}

// The next group, after those that give `before` bytes. There is none at the end of the data.
#[tactic(auto, unfolding(lx_model::specs::Iterated::group_at))]
fn next_group<'a>(fields: &mut Fields<'a>, before: usize) -> Result<Option<Group<'a>>, IterRefusal>
    requires { before ≤ PAGE_SIZE }
    ensures read { Reads (option_map (λ g. (group_of g, before + g.times * length g.bytes.now)))
        (told_as refusal) result (group_at before) fields.old fields.new }
    ensures fits { IfOk result (λ found. IfSome found
        (λ g. before + g.times * length g.bytes.now ≤ PAGE_SIZE)) }
{
    let at = fields.at();
    if fields.left() == 0 {
        return Ok(None);
    }
    let Ok(group) = group_fields(fields) else {
        return Err(IterRefusal::Short { at });
    };
    if usize::from(group.times) * group.bytes.len() > PAGE_SIZE as usize - before {
        return Err(IterRefusal::TooLong { at });
    }
    Ok(Some(group))
}

// Writes bytes a number of times at a place, one after the other.
fn put_times(into: &mut [u8], at: usize, times: u16, bytes: &[u8])
    requires { at + times * length bytes.now ≤ length into.old }
    ensures { take (at + times * length bytes.now) into.new
        ≡ take at into.old ++ repeat times bytes.now }
{
    let len = bytes.len();
    if len == 0 {
        return;
    }
    let mut to = at;
    for _ in 0..times {
        into[to..to + len].copy_from_slice(bytes);
        to += len;
    }
}

/// Writes the page of iterated data: the bytes of its groups, and zeros up to the page's end.
///
/// A refusal is of the first group that is wrong: `Short` where it passes the end of the data, or
/// else `TooLong` where with it there are more than 4,096 bytes. Nothing is told of `into` then.
pub fn expand(bytes: &[u8], into: &mut PageBytes) -> Result<(), IterRefusal>
    requires { length bytes.now < 2 ^ 32 }
    ensures { Expands result bytes.now into.new }
{
    let mut fields = Fields::of(bytes);
    let mut given = 0;
    while let Some(group) = next_group(&mut fields, given)? {
        put_times(into, given, group.times, group.bytes);
        given += usize::from(group.times) * group.bytes.len();
    }
    into[given..].fill(0);
    Ok(())
}
