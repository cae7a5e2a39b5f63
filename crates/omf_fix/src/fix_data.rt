//! A fix byte and the fields after it.

ghost use Rattle.std.specs.Prelude.{◌≡◌, ◌&&◌, not};
ghost use Rattle.omf_fix.specs.Methods.{Counts};
ghost use Rattle.lx_types.specs.Answers.{as_is, Reads};
ghost use Rattle.omf_fix.specs.FixData.{data_of, meant, meant_at};
ghost use Rattle.omf_fields.specs.Fields.{number_at, where_so, width};
ghost use Rattle.omf_model.specs.Fixups.{has_index as index_follows};
ghost use Rattle.omf_model.specs.ReadFixups.{fix_data_at, method_index_at};
ghost use Rattle.omf_model.specs.Record.{by_frame_thread, by_target_thread, frame_bits, has_displacement, target_bits};

use crate::have::Have;
use crate::methods::{
    are_methods, check_frame, check_goal, frame_by, goal_by, has_index, has_threads, method_index,
    thread_frame, thread_goal,
};
use obj_types::{Frame, Goal, ObjParts, OmfRefusal, StartAt};
use omf_fields::Fields;

/// A fix byte, and what stands after it.
#[derive(Clone, Copy)]
pub(crate) struct FixFields {
    fix: u8,
    frame: Option<u32>,
    target: Option<u32>,
    displacement: Option<u32>,
}

/// The index of a frame that is named by its method, where the method has one.
fn frame_index(
    fields: &mut Fields,
    judged: bool,
    before: &ObjParts,
    have: Have,
    fix: u8,
) -> Result<Option<u32>, OmfRefusal>
    requires { Counts have before.now }
    ensures { Reads (λ index. index) as_is result
        (where_so (not (by_frame_thread fix) && index_follows (frame_bits fix)) (method_index_at judged before.now (frame_bits fix))) fields.old fields.new }
{
    let method = fix / 16 % 8;
    if fix >= 0x80 || !has_index(method) {
        return Ok(None);
    }
    Ok(Some(method_index(fields, judged, before, have, method)?))
}

/// The index of a target that is named by its method.
fn target_index(
    fields: &mut Fields,
    judged: bool,
    before: &ObjParts,
    have: Have,
    fix: u8,
) -> Result<Option<u32>, OmfRefusal>
    requires { Counts have before.now }
    ensures { Reads (λ index. index) as_is result
        (where_so (not (by_target_thread fix)) (method_index_at judged before.now (target_bits fix))) fields.old fields.new }
{
    if fix / 8 % 2 == 1 {
        return Ok(None);
    }
    Ok(Some(method_index(fields, judged, before, have, fix % 4)?))
}

/// The displacement, which stands there without P.
fn displacement(fields: &mut Fields, wide: bool, fix: u8) -> Result<Option<u32>, OmfRefusal>
    ensures { Reads (λ n. n) as_is result (where_so (has_displacement fix) (number_at (width wide))) fields.old fields.new }
{
    if fix / 4 % 2 == 1 {
        return Ok(None);
    }
    Ok(Some(fields.number(wide)?))
}

/// The fix byte and the fields after it. Of a fixup on a debugger's data, which is not `judged`, the thread and the
/// methods alone are judged.
#[tactic(auto, unfolding(omf_model::specs::ReadFixups::fix_data_at))]
pub(crate) fn fix_fields(
    fields: &mut Fields,
    wide: bool,
    judged: bool,
    before: &ObjParts,
    have: Have,
) -> Result<FixFields, OmfRefusal>
    requires { Counts have before.now }
    ensures { Reads data_of as_is result (fix_data_at judged wide before.now) fields.old fields.new }
{
    let at = fields.at();
    let fix = fields.byte()?;
    if !has_threads(before, fix) {
        return Err(OmfRefusal::NoThread { at });
    }
    if !are_methods(fix) {
        return Err(OmfRefusal::BadField { at });
    }
    check_frame(judged, before, have, at, thread_frame(before, fix))?;
    check_goal(judged, before, have, at, thread_goal(before, fix))?;
    let frame = frame_index(fields, judged, before, have, fix)?;
    let target = target_index(fields, judged, before, have, fix)?;
    let displacement = displacement(fields, wide, fix)?;
    Ok(FixFields {
        fix,
        frame,
        target,
        displacement,
    })
}

/// What the fields mean, where the threads are set that they name.
pub fn meaning(d: FixFields, before: &ObjParts) -> StartAt
    ensures { result ≡ meant before.now.threads (data_of d) }
{
    let frame = if d.fix < 0x80 {
        frame_by(d.fix / 16 % 8, d.frame.unwrap_or(0))
    } else {
        thread_frame(before, d.fix).unwrap_or(Frame::Here)
    };
    let goal = if d.fix / 8 % 2 == 0 {
        goal_by(d.fix % 4, d.target.unwrap_or(0))
    } else {
        thread_goal(before, d.fix).unwrap_or(Goal::Seg(0))
    };
    StartAt {
        frame,
        goal,
        disp: d.displacement.unwrap_or(0),
    }
}

/// The start address of a MODEND record ("8Ah MODEND"), from its fix byte on, after the records before it. Its
/// displacement has 4 bytes where the record is `wide`.
pub fn start_at(
    fields: &mut Fields,
    wide: bool,
    before: &ObjParts,
    have: Have,
) -> Result<StartAt, OmfRefusal>
    requires { Counts have before.now }
    ensures { Reads (λ start. start) as_is result (meant_at wide before.now) fields.old fields.new }
{
    let d = fix_fields(fields, wide, true, before, have)?;
    Ok(meaning(d, before))
}
