//! The parts of each logical segment.

ghost use Rattle.std.specs.Prelude.{◌≡◌, [], map, filter, IfOk};
ghost use Rattle.std.specs.List.{range_with_len};
ghost use Rattle.link_model.specs.Parts.{joins};
ghost use Rattle.seg_parts.specs.LogicalSegments.{heads_of};
ghost use Rattle.seg_parts.specs.Parts.{shown};

use lx_types::NoMemory;
use seg_parts::{LogicalSegments, Part};
use std::alloc::Global;

fn no_parts<'a>(alloc: Global, count: usize) -> Result<Vec<Vec<Part<'a>>>, NoMemory>
    ensures { IfOk result (λ lists. map (λ v. map shown v.items) lists.items ≡ map (λ _. []) (range_with_len 0 count)) }
{
    let mut lists = Vec::new(alloc);
    for _place in 0..count {
        lists.push(Vec::new(alloc))?;
    }
    Ok(lists)
}

/// The parts of each logical segment, in order.
pub(crate) fn parts_of_segments<'a>(
    alloc: Global,
    segments: &LogicalSegments<'a>,
) -> Result<Vec<Vec<Part<'a>>>, NoMemory>
    ensures { IfOk result (λ lists. map (λ v. map shown v.items) lists.items
        ≡ map (λ s. filter (joins s) segments.now) (heads_of segments.now)) }
{
    let mut lists = no_parts(alloc, segments.heads().len())?;
    for (place, part) in segments.parts().iter().enumerate() {
        let number = segments.numbers()[place];
        lists[number].push(*part)?;
    }
    Ok(lists)
}
