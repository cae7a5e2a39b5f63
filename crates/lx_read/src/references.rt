//! The fixup records of all pages: their faults, and what they name outside the module's own objects
//! ("Fixup Record Table").

ghost use Rattle.std.specs.Prelude.{◌≡◌, ◌≤◌, IfOk, OnOk, None, length};
ghost use Rattle.lx_types.specs.Parts.{span};
ghost use Rattle.lx_model.specs.Reading.{first_of};
ghost use Rattle.lx_model.specs.Header.{page_count};
ghost use Rattle.lx_model.specs.FixupPages.{spans_of, spans_fault};
ghost use Rattle.lx_model.specs.Module.{targets_in, refs_of, page_records_fault};
ghost use Rattle.lx_fixrec.specs.Reads.{refusal};
ghost use Rattle.lx_fixrec.specs.Left.{left_in};
ghost use Rattle.lx_types.specs.Answers.{if_said};
ghost use Rattle.lx_model.specs.Judging.{Judges};
ghost use Rattle.lx_read.specs.Targets.{targets, AreTargets};
ghost use Rattle.lx_read.specs.References.{with_target, AddsPage};

use crate::fields::fault;
use crate::targets::Targets;
use indexmap::IndexSet;
use lx_fixrec::{RecRefusal, records};
use lx_types::{Fail, FixTarget, LxKind, LxRefusal, NoMemory, Seq};
use std::alloc::Global;

// What is wrong with fixup records.
fn record_fault(why: RecRefusal) -> LxRefusal
    ensures { result ≡ refusal why }
{
    match why {
        RecRefusal::Short { at } => fault(LxKind::Short, u64::from(at)),
        RecRefusal::BadSource { at } => fault(LxKind::BadSource, u64::from(at)),
        RecRefusal::Straddle { at } => fault(LxKind::Straddle, u64::from(at)),
    }
}

// Adds a target outside the module's own objects, unless it is there.
fn add_target(references: &mut IndexSet<FixTarget>, target: FixTarget) -> Result<(), NoMemory>
    ensures { OnOk result (references.new.keys ≡ with_target references.old.keys target) }
{
    match target {
        FixTarget::Internal { .. } => Ok(()),
        _ => {
            references.insert(target)?;
            Ok(())
        }
    }
}

// Adds the targets of a page's records, which begin at one place and end at another.
fn add_page(
    references: &mut IndexSet<FixTarget>,
    within: &Targets,
    place: (u32, u32),
) -> Result<(), Fail<LxRefusal>>
    requires within { AreTargets within.now }
    requires order { place.0 ≤ place.1 }
    requires end { place.1 ≤ length within.now.file.now }
    ensures { AddsPage result (targets within.now)
        (left_in place.0 (span within.now.file.now place.0 place.1))
        references.old.keys references.new.keys }
{
    let (from, to) = place;
    let mut sources = records(&within.file[from as usize..to as usize], from);
    while let Some(source) = sources.next() {
        match source {
            Ok(fix) => {
                if !within.has(fix.target) {
                    return Err(Fail::Said(fault(LxKind::BadTarget, u64::from(sources.at()))));
                }
                add_target(references, fix.target)?;
            }
            Err(why) => return Err(Fail::Said(record_fault(why))),
        }
    }
    Ok(())
}

fn listed(alloc: Global, references: &IndexSet<FixTarget>) -> Result<Seq<FixTarget>, NoMemory>
    ensures { IfOk result (λ listed. listed ≡ references.now.keys) }
{
    Ok(Seq::from_vec(Vec::from_slice(alloc, references.as_slice())?))
}

/// The targets of all records outside the module's own objects, each once, in the order in which
/// they first appear. A refusal is the first fault of the records: `BadSource`, `Short` or
/// `Straddle`, or a target that is not there (`BadTarget`, at the first byte of a record that has a
/// source).
pub fn read_references(
    alloc: Global,
    within: &Targets,
    spans: &[(u32, u32)],
) -> Result<Seq<FixTarget>, Fail<LxRefusal>>
    requires within { AreTargets within.now }
    requires targets { targets within.now ≡ targets_in within.now.file.now }
    requires spans { spans.now ≡ spans_of within.now.file.now }
    requires good { spans_fault within.now.file.now ≡ None }
    ensures { Judges if_said result (refs_of within.now.file.now)
        (first_of (page_count within.now.file.now) (page_records_fault within.now.file.now)) }
{
    let mut references = IndexSet::new(alloc);
    for span in spans {
        add_page(&mut references, within, *span)?;
    }
    Ok(listed(alloc, &references)?)
}
