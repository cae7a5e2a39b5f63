//! The stack segment that the linker adds.

ghost use Rattle.std.specs.Prelude.{◌≡◌, ◌++◌, ◌∷◌, [], map, if◌then◌else◌, IfOk};
ghost use Rattle.link_model.specs.Order.{own_stack};
ghost use Rattle.seg_parts.specs.Communals.{wants_stack};
ghost use Rattle.seg_parts.specs.FixedNames.{AreFixed};

use lx_types::NoMemory;
use obj_types::ModKind;
use seg_parts::{FixedNames, LogicalSegments, add_own_stack, segments_of, wants_stack};
use std::alloc::Global;

/// These logical segments, and after them the stack segment of a program that has none.
pub fn with_own_stack<'a>(
    alloc: Global,
    segments: LogicalSegments<'a>,
    kind: ModKind,
    fixed: &'a FixedNames,
) -> Result<LogicalSegments<'a>, NoMemory>
    requires { AreFixed fixed.now }
    ensures { IfOk result (λ all. all ≡ segments.entry ++ (if wants_stack kind segments.entry then own_stack ∷ [] else [])) }
{
    if !wants_stack(kind, segments.parts()) {
        return Ok(segments);
    }
    let mut parts = segments.into_parts();
    add_own_stack(&mut parts, kind, fixed)?;
    segments_of(alloc, parts)
}
