//! THREADs: frames and targets that later fixups name by number.

ghost use Rattle.std.specs.Prelude.{◌≡◌, [], ◌∷◌, ◌<◌};
ghost use Rattle.omf_fix.specs.Field.{first_at};
ghost use Rattle.omf_fix.specs.Methods.{Counts};
ghost use Rattle.lx_types.specs.Answers.{as_is, Reads};
ghost use Rattle.omf_model.specs.AddLists.{HasFour};
ghost use Rattle.omf_model.specs.Fixups.{set_threads, is_thread_method as thread_has_method};
ghost use Rattle.omf_model.specs.ReadFixups.{thread_at};
ghost use Rattle.omf_model.specs.Record.{is_frame_thread as frame_thread, thread, thread_method as method_of};

use crate::methods::{frame_by, goal_by, has_index, is_frame_method, is_target_method};
use crate::starts::FieldStart;
use obj_types::{ObjParts, OmfRefusal, Threads};
use omf_fields::Fields;

/// Whether a THREAD sets a frame thread, and not a target thread.
fn is_frame_thread(byte: u8) -> bool
    ensures { result ≡ frame_thread byte }
{
    byte / 64 % 2 == 1
}

/// The method of a THREAD. A target thread has only two bits for it.
fn thread_method(byte: u8) -> u8
    ensures { result ≡ method_of byte }
{
    if is_frame_thread(byte) {
        byte / 4 % 8
    } else {
        byte / 4 % 4
    }
}

/// Whether a THREAD's method is one of its kind.
fn is_thread_method(byte: u8) -> bool
    ensures { result ≡ thread_has_method byte }
{
    let method = thread_method(byte);
    if is_frame_thread(byte) {
        is_frame_method(method)
    } else {
        is_target_method(method)
    }
}

/// The index after a THREAD's byte, where there is one. It may be that of a debug segment.
#[tactic(auto, unfolding(omf_model::specs::ReadFixups::thread_at))]
pub fn thread_index(
    fields: &mut Fields,
    before: &ObjParts,
    start: FieldStart,
) -> Result<Option<u32>, OmfRefusal>
    requires { Counts start.fixupp.have before.now }
    ensures { Reads (λ index. thread start.byte index) as_is result (thread_at before.now (first_at start)) fields.old fields.new }
{
    if !is_thread_method(start.byte) {
        return Err(OmfRefusal::BadField { at: start.at });
    }
    let method = thread_method(start.byte);
    if !has_index(method) {
        return Ok(None);
    }
    Ok(Some(fields.index_below(start.fixupp.have.by_method(method))?))
}

/// Sets the thread that a THREAD names.
pub fn set_thread(threads: &mut Threads, byte: u8, index: Option<u32>)
    requires four { HasFour threads.old }
    ensures { threads.new ≡ set_threads threads.old (thread byte index ∷ []) }
{
    let number = usize::from(byte % 4);
    let method = thread_method(byte);
    let index = index.unwrap_or(0);
    if is_frame_thread(byte) {
        threads.frame[number] = Some(frame_by(method, index));
    } else {
        threads.goal[number] = Some(goal_by(method, index));
    }
}
