//! What an index means: the name or the segment that came before.

ghost use Rattle.std.specs.Prelude.{◌≡◌, ◌≤◌, ◌<◌, IfOk, length};
ghost use Rattle.omf_model.specs.Items.{is_debug_seg, name_with};
ghost use Rattle.omf_model.specs.ReadNames.{plain_seg_at, plain_seg_or_zero};
ghost use Rattle.lx_types.specs.Answers.{as_is, Reads};

use lx_types::Name;
use obj_types::{ObjParts, OmfRefusal, Seg};
use omf_fields::Fields;

/// The bytes of the name with an index, which counts from 1.
pub fn text(names: &[Name], index: u32) -> &[u8]
    requires some { 1 ≤ index }
    requires there { index ≤ length names.now }
    ensures name { result.now ≡ name_with names.now index }
    ensures short { length result.now < 256 }
{
    names[index as usize - 1].bytes()
}

/// Whether the segment with an index holds a debugger's symbols or types. Index 0 means none.
pub fn is_debug_segment(segs: &[Seg], index: u32) -> bool
    ensures { result ≡ is_debug_seg segs.now index }
{
    if index == 0 {
        return false;
    }
    match segs.get(index as usize - 1) {
        Some(seg) => seg.debug,
        None => false,
    }
}

/// The next index, which is that of one of the `have` segments before, and not of one with a debugger's data.
#[tactic(auto, unfolding(omf_model::specs::ReadNames::plain_seg_at, omf_fields::specs::Fields::index_below))]
pub fn plain_segment(fields: &mut Fields, before: &ObjParts, have: u32) -> Result<u32, OmfRefusal>
    requires { have ≡ length before.now.module.segs }
    ensures { Reads (λ n. n) as_is result (plain_seg_at before.now) fields.old fields.new }
{
    let at = fields.at();
    let index = fields.index_below(have)?;
    if is_debug_segment(before.module.segs.as_slice(), index) {
        return Err(OmfRefusal::BadIndex { at, index, have });
    }
    Ok(index)
}

/// The same, or 0 for no segment.
#[tactic(auto, unfolding(omf_model::specs::ReadNames::plain_seg_or_zero, omf_fields::specs::Fields::index_or_zero))]
pub fn plain_segment_or_zero(
    fields: &mut Fields,
    before: &ObjParts,
    have: u32,
) -> Result<u32, OmfRefusal>
    requires { have ≡ length before.now.module.segs }
    ensures { Reads (λ n. n) as_is result (plain_seg_or_zero before.now) fields.old fields.new }
{
    let at = fields.at();
    let index = fields.index_or_zero(have)?;
    if is_debug_segment(before.module.segs.as_slice(), index) {
        return Err(OmfRefusal::BadIndex { at, index, have });
    }
    Ok(index)
}
