//! The first fault of a file.

ghost use Rattle.std.specs.Prelude.{◌≡◌, ◌++◌, IfOk, string_bytes};
ghost use Rattle.obj_types.specs.declared.refusal.OmfRefusal.TheVariants.{BadIndex};
ghost use Rattle.answer_model.specs.FileRefusals.{at_line, placed, field, omf_text};
ghost use Rattle.refusal_text.specs.Refusals.{fault_text};

use crate::kinds::{check_kind, def_kind, lx_kind, res_fault, session_kind};
use crate::refused::FileFault;
use obj_types::OmfRefusal;
use std::alloc::{AllocError, Global};

// `@AT KIND`
fn placed(alloc: Global, at: usize, kind: &str) -> Result<String, AllocError>
    ensures { IfOk result (λ text. string_bytes text ≡ placed at kind.now) }
{
    format!(in alloc; "@{at} {kind}")
}

// `@AT KIND FIELD`
fn placed_with(alloc: Global, at: usize, kind: &str, number: u8) -> Result<String, AllocError>
    ensures { IfOk result (λ text. string_bytes text ≡ placed at (kind.now ++ field number)) }
{
    format!(in alloc; "@{at} {kind} {number}")
}

fn index_text(alloc: Global, at: usize, index: u32, have: u32) -> Result<String, AllocError>
    ensures { IfOk result (λ text. string_bytes text ≡ omf_text (BadIndex at index have)) }
{
    format!(in alloc; "@{at} BadIndex {index} {have}")
}

// `line N KIND`
fn at_line(alloc: Global, number: u64, kind: &str) -> Result<String, AllocError>
    ensures { IfOk result (λ text. string_bytes text ≡ at_line number kind.now) }
{
    format!(in alloc; "line {number} {kind}")
}

// What is told of the first fault of an object file or a library: `@AT KIND FIELDS`.
fn omf_text(alloc: Global, refusal: &OmfRefusal) -> Result<String, AllocError>
    ensures { IfOk result (λ text. string_bytes text ≡ omf_text refusal.now) }
{
    match *refusal {
        OmfRefusal::Short { at } => placed(alloc, at, "Short"),
        OmfRefusal::BadChecksum { at, sum } => placed_with(alloc, at, "BadChecksum", sum),
        OmfRefusal::UnknownType { at, ty } => placed_with(alloc, at, "UnknownType", ty),
        OmfRefusal::BadIndex { at, index, have } => index_text(alloc, at, index, have),
        OmfRefusal::BadField { at } => placed(alloc, at, "BadField"),
        OmfRefusal::DataRange { at } => placed(alloc, at, "DataRange"),
        OmfRefusal::Nested { at } => placed(alloc, at, "Nested"),
        OmfRefusal::NoThread { at } => placed(alloc, at, "NoThread"),
        OmfRefusal::BadLocation { at, loc } => placed_with(alloc, at, "BadLocation", loc),
        OmfRefusal::NoData { at } => placed(alloc, at, "NoData"),
        OmfRefusal::FixOverlap { at } => placed(alloc, at, "FixOverlap"),
        OmfRefusal::DataOverFix { at } => placed(alloc, at, "DataOverFix"),
        OmfRefusal::TooMany { at } => placed(alloc, at, "TooMany"),
    }
}

/// What is told of the first fault of a file: where it is, its kind, and its fields.
pub fn fault_text(alloc: Global, fault: &FileFault) -> Result<String, AllocError>
    ensures { IfOk result (λ text. string_bytes text ≡ fault_text fault.now) }
{
    match fault {
        FileFault::Object(refusal) => omf_text(alloc, refusal),
        FileFault::Definition(refusal) => {
            at_line(alloc, u64::from(refusal.line), def_kind(refusal.kind).0)
        }
        FileFault::Module(refusal) => {
            let at = refusal.at;
            let kind = lx_kind(refusal.kind).0;
            format!(in alloc; "@{at} {kind}")
        }
        FileFault::Session(refusal) => {
            at_line(alloc, u64::from(refusal.line), session_kind(refusal.kind).0)
        }
        FileFault::Resources(refusal) => {
            let (at, kind, _) = res_fault(*refusal);
            placed(alloc, at, kind)
        }
        FileFault::Transcript(fault, _) => at_line(alloc, fault.line, check_kind(fault.kind).0),
    }
}
