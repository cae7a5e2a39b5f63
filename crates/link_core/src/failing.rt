//! What a step did not do, as its caller tells it.

ghost use Rattle.link_core.specs.Failed.{IsFailedAs};

use lx_types::Fail;

/// What a step did not do, as its caller tells it: the step's refusal in the caller's words, which `told` has. Want of memory
/// is want of memory to the caller too.
pub fn failed_as<E, R, F: FnOnce(E) -> R>(fail: Fail<E>, told: F) -> Fail<R>
    requires { F.IsAlwaysCallable told }
    ensures { IsFailedAs (F.post told) fail result }
{
    match fail {
        Fail::Said(refusal) => Fail::Said(told(refusal)),
        Fail::NoMemory => Fail::NoMemory,
    }
}
