//! One record: its spelling, and its sources one after another.

ghost use Rattle.std.specs.Prelude.{◌≡◌, IfOk, IfSome, MatchOption};
ghost use Rattle.std.specs.Option.{ForSome};
ghost use Rattle.lx_model.specs.RecordFields.{offsets_at};
ghost use Rattle.lx_model.specs.Records.{single_at, list_at, record_at};
ghost use Rattle.lx_types.specs.Answers.{Reads, told_as};
ghost use Rattle.lx_fixrec.specs.Reads.{refusal, kind_of};
ghost use Rattle.lx_fixrec.specs.Sources.{record_fixes, fix_of, IsGood, Skips, GivesFix, GivesLeft};

use crate::fields::{additive, offset, target};
use crate::refusal::RecRefusal;
use crate::sources::{Kind, kind_of};
use lx_fields::Fields;
use lx_model::CHAIN;
use lx_types::{Fix, FixTarget, Source};

/// A record whose spelling was found good: what its sources share, and the offsets of those that
/// were not given yet.
#[derive(Drop)]
pub struct Record<'a> {
    pub kind: Kind,
    pub target: FixTarget,
    pub additive: u32,
    pub left: u8,
    pub offsets: Fields<'a>,
}

// Passes over the offsets of a list, and judges them.
fn skip_offsets(fields: &mut Fields, count: u8, source: Source) -> Result<(), RecRefusal>
    ensures { Skips result (offsets_at count source) fields.old fields.new }
{
    for _ in 0..count {
        offset(fields, source)?;
    }
    Ok(())
}

// One source: the offset, the target, the additive.
#[tactic(auto, unfolding(lx_model::specs::Records::single_at))]
fn single<'a>(fields: &mut Fields<'a>, kind: Kind, flags: u8) -> Result<Record<'a>, RecRefusal>
    ensures read { Reads record_fixes (told_as refusal) result (single_at (kind_of kind) flags) fields.old fields.new }
    ensures good { IfOk result (λ r. IsGood r) }
{
    let offsets = fields.fork();
    offset(fields, kind.source)?;
    let target = target(fields, kind.source, flags)?;
    let additive = additive(fields, flags)?;
    Ok(Record {
        kind,
        target,
        additive,
        left: 1,
        offsets,
    })
}

// A list: how many, the target, the additive, the offsets.
#[tactic(auto, unfolding(lx_model::specs::Records::list_at))]
fn list<'a>(fields: &mut Fields<'a>, kind: Kind, flags: u8) -> Result<Record<'a>, RecRefusal>
    ensures read { Reads record_fixes (told_as refusal) result (list_at (kind_of kind) flags) fields.old fields.new }
    ensures good { IfOk result (λ r. IsGood r) }
{
    let left = fields.byte()?;
    let target = target(fields, kind.source, flags)?;
    let additive = additive(fields, flags)?;
    let offsets = fields.fork();
    skip_offsets(fields, left, kind.source)?;
    Ok(Record {
        kind,
        target,
        additive,
        left,
        offsets,
    })
}

/// The record that stands at the cursor, judged whole.
#[tactic(auto, unfolding(lx_model::specs::Records::record_at))]
pub fn record_at<'a>(fields: &mut Fields<'a>) -> Result<Record<'a>, RecRefusal>
    ensures read { Reads record_fixes (told_as refusal) result record_at fields.old fields.new }
    ensures good { IfOk result (λ r. IsGood r) }
{
    let at = fields.at();
    let source = fields.byte()?;
    let Some(kind) = kind_of(source) else {
        return Err(RecRefusal::BadSource { at });
    };
    let flags = fields.byte()?;
    if flags & CHAIN != 0 {
        Err(RecRefusal::BadSource { at })
    } else if kind.listed {
        list(fields, kind, flags)
    } else {
        single(fields, kind, flags)
    }
}

// The source of a record that begins at an offset.
fn fix_at(current: &Record, offset: i32) -> Fix
    ensures { result ≡ fix_of current.now offset }
{
    Fix {
        source: current.kind.source,
        alias: current.kind.alias,
        offset,
        target: current.target,
        additive: current.additive,
    }
}

/// The next source of a record.
pub fn next_fix(current: &mut Record) -> Option<Fix>
    requires { IsGood current.old }
    ensures { GivesFix result current.old current.new }
{
    if current.left == 0 {
        return None;
    }
    let Ok(offset) = offset(&mut current.offsets, current.kind.source) else {
        unreachable!()
    };
    let fix = fix_at(current, offset);
    current.left -= 1;
    Some(fix)
}

/// The next source of a record, where there is one.
pub fn next_of(current: &mut Option<Record>) -> Option<Fix>
    requires { ForSome current.old IsGood }
    ensures { GivesLeft result current.old current.new }
{
    match current {
        Some(rest) => next_fix(rest),
        None => None,
    }
}
