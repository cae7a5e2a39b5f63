//! A refusal as a call answers it that takes memory.

ghost use Rattle.std.specs.Prelude.{◌≡◌};
ghost use Rattle.lx_types.specs.Answers.{as_said};

use lx_types::Fail;
use obj_types::OmfRefusal;

/// What was read, or its refusal as a call answers it that takes memory.
pub fn said<T>(read: Result<T, OmfRefusal>) -> Result<T, Fail<OmfRefusal>>
    ensures { result ≡ as_said read }
{
    match read {
        Ok(value) => Ok(value),
        Err(refusal) => Err(Fail::Said(refusal)),
    }
}
