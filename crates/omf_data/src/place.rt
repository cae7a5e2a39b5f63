//! Where data may lie.

ghost use Rattle.std.specs.Prelude.{◌≡◌, ◌+◌, ◌^◌, ◌≤◌, ◌<◌, OnOk, Some, false, length};
ghost use Rattle.lx_types.specs.Answers.{if_said, Gives};
ghost use Rattle.obj_types.specs.Items.{item};
ghost use Rattle.omf_data.specs.Marks.{HaveAll};
ghost use Rattle.omf_model.specs.Items.{data_so_far, is_debug_seg};
ghost use Rattle.omf_model.specs.ReadData.{judge_data};

use crate::marks::Marks;
use lx_types::Fail;
use obj_types::{MAX_DATA, ObjParts, OmfRefusal, Seg};

/// A segment, an offset in it, and the place of the field that says the offset.
#[derive(Clone, Copy)]
pub struct Place {
    pub seg: u32,
    pub offset: u32,
    pub offset_at: usize,
}

/// The segment with an index, which counts from 1.
pub fn segment(parts: &ObjParts, index: u32) -> &Seg
    requires some { 1 ≤ index }
    requires there { index ≤ length parts.now.module.segs }
    ensures { item parts.now.module.segs index ≡ Some result.now }
{
    &parts.module.segs.as_slice()[index as usize - 1]
}

/// Judges `len` bytes of data of the record at `at`: within their segment, within the module's limit, and on no
/// location of an earlier fixup. Of data of a debug segment none is judged.
#[tactic(auto, unfolding(omf_model::specs::ReadData::judge_data))]
pub fn judge(
    before: &ObjParts,
    marks: &mut Marks,
    at: usize,
    place: Place,
    len: usize,
) -> Result<(), Fail<OmfRefusal>>
    requires marks { HaveAll marks.old before.now }
    requires some { 1 ≤ place.seg }
    requires there { place.seg ≤ length before.now.module.segs }
    requires limit { data_so_far before.now ≤ MAX_DATA }
    requires size { len < 2 ^ 63 }
    ensures judged { Gives (λ u. u) if_said result (judge_data before.now at place.offset_at place.seg place.offset len) }
    ensures marks { HaveAll marks.new before.now }
    // Offsets and lengths of segments are below 2^32.
    ensures fits { OnOk result (is_debug_seg before.now.module.segs place.seg ≡ false → len < 2 ^ 32) }
{
    let target = segment(before, place.seg);
    if target.debug {
        return Ok(());
    }
    let offset_at = place.offset_at;
    if place.offset as usize + len > target.len as usize {
        return Err(Fail::Said(OmfRefusal::DataRange { at: offset_at }));
    }
    if marks.bytes() as usize + len > MAX_DATA as usize {
        return Err(Fail::Said(OmfRefusal::TooMany { at }));
    }
    let on_fix = marks.is_on_fix(before, place.seg, place.offset, len as u32)?;
    if on_fix {
        return Err(Fail::Said(OmfRefusal::DataOverFix { at: offset_at }));
    }
    Ok(())
}
