//! Frames and targets, by method and index or by thread.

ghost use Rattle.std.specs.Prelude.{◌≡◌, IfOk};
ghost use Rattle.omf_fix.specs.Methods.{Counts};
ghost use Rattle.lx_types.specs.Answers.{as_is, Reads};
ghost use Rattle.omf_model.specs.Fixups.{are_methods as both_methods, frame_by as frame_for, goal_by as goal_for, has_index as index_follows, is_frame_method as frame_method, is_target_method as target_method};
ghost use Rattle.omf_model.specs.ReadFixups.{check_frame as frame_checked, check_goal as goal_checked, check_plain as plain_checked, has_threads as both_threads, method_index_at, thread_frame as frame_thread, thread_goal as goal_thread};

use crate::have::Have;
use obj_types::{Frame, Goal, ObjParts, OmfRefusal};
use omf_fields::Fields;
use omf_names::{is_debug_segment, plain_segment};

/// Whether a frame has this method: 3, 6 and 7 are not used.
pub fn is_frame_method(method: u8) -> bool
    ensures { result ≡ frame_method method }
{
    method <= 2 || method == 4 || method == 5
}

/// Whether a target has this method, which 3 is not.
pub fn is_target_method(method: u8) -> bool
    ensures { result ≡ target_method method }
{
    method <= 2
}

/// Whether an index follows for this method.
pub fn has_index(method: u8) -> bool
    ensures { result ≡ index_follows method }
{
    method <= 2
}

/// The frame of a method, and of its index where it has one.
pub fn frame_by(method: u8, index: u32) -> Frame
    ensures { result ≡ frame_for method index }
{
    match method {
        0 => Frame::Seg(index),
        1 => Frame::Group(index),
        2 => Frame::Ext(index),
        4 => Frame::Here,
        _ => Frame::OfTarget,
    }
}

/// The target of a method and its index.
pub fn goal_by(method: u8, index: u32) -> Goal
    ensures { result ≡ goal_for method index }
{
    match method {
        0 => Goal::Seg(index),
        1 => Goal::Group(index),
        _ => Goal::Ext(index),
    }
}

/// The frame thread that a fix byte names, where it names one that is set.
pub fn thread_frame(before: &ObjParts, fix: u8) -> Option<Frame>
    ensures { result ≡ frame_thread before.now fix }
{
    if fix < 0x80 {
        return None;
    }
    before.threads.frame[usize::from(fix / 16 % 4)]
}

/// The target thread that a fix byte names, where it names one that is set.
pub fn thread_goal(before: &ObjParts, fix: u8) -> Option<Goal>
    ensures { result ≡ goal_thread before.now fix }
{
    if fix / 8 % 2 == 0 {
        return None;
    }
    before.threads.goal[usize::from(fix % 4)]
}

/// Whether the threads are set that a fix byte names.
pub fn has_threads(before: &ObjParts, fix: u8) -> bool
    ensures { result ≡ both_threads before.now fix }
{
    (fix < 0x80 || thread_frame(before, fix).is_some())
        && (fix / 8 % 2 == 0 || thread_goal(before, fix).is_some())
}

/// Whether the methods that a fix byte has are some.
pub fn are_methods(fix: u8) -> bool
    ensures { result ≡ both_methods fix }
{
    (fix >= 0x80 || is_frame_method(fix / 16 % 8))
        && (fix / 8 % 2 == 1 || is_target_method(fix % 4))
}

/// Judges a segment that a thread names: it is no debug segment, unless the fixup is on a debugger's data.
fn check_plain(
    judged: bool,
    before: &ObjParts,
    have: Have,
    at: usize,
    index: u32,
) -> Result<(), OmfRefusal>
    requires { Counts have before.now }
    ensures { result ≡ plain_checked judged before.now at index }
{
    if judged && is_debug_segment(before.module.segs.as_slice(), index) {
        return Err(OmfRefusal::BadIndex {
            at,
            index,
            have: have.segs(),
        });
    }
    Ok(())
}

/// Judges the frame that a thread names, at its fix byte.
pub fn check_frame(
    judged: bool,
    before: &ObjParts,
    have: Have,
    at: usize,
    frame: Option<Frame>,
) -> Result<(), OmfRefusal>
    requires { Counts have before.now }
    ensures { result ≡ frame_checked judged before.now at frame }
{
    match frame {
        Some(Frame::Seg(index)) => check_plain(judged, before, have, at, index),
        _ => Ok(()),
    }
}

/// Judges the target that a thread names, at its fix byte.
pub fn check_goal(
    judged: bool,
    before: &ObjParts,
    have: Have,
    at: usize,
    goal: Option<Goal>,
) -> Result<(), OmfRefusal>
    requires { Counts have before.now }
    ensures { result ≡ goal_checked judged before.now at goal }
{
    match goal {
        Some(Goal::Seg(index)) => check_plain(judged, before, have, at, index),
        _ => Ok(()),
    }
}

/// The next index, of a method's kind. Of a fixup on a debugger's data it may be any.
pub fn method_index(
    fields: &mut Fields,
    judged: bool,
    before: &ObjParts,
    have: Have,
    method: u8,
) -> Result<u32, OmfRefusal>
    requires { Counts have before.now }
    ensures { Reads (λ n. n) as_is result (method_index_at judged before.now method) fields.old fields.new }
{
    if !judged {
        fields.index()
    } else if method == 0 {
        plain_segment(fields, before, have.segs())
    } else {
        fields.index_below(have.by_method(method))
    }
}
