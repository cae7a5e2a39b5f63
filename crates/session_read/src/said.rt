//! What a line says.

ghost use Rattle.std.specs.Prelude.{◌≡◌};
ghost use Rattle.std.specs.Result.{result_ok};
ghost use Rattle.session_read.specs.Told.{module_said, failing_said};

use load_model::Command;
use session_model::{FailingLine, ModLine};

/// A statement.
#[derive(Drop)]
pub(crate) enum Said {
    Module(ModLine),
    Failing(FailingLine),
    /// A script begins, of the process with this number.
    Process(u32),
    Command(Command),
}

impl Said {
    /// The module that it gives, or the statement where it is another.
    pub fn into_module(self) -> Result<ModLine, Said>
        ensures { result_ok result ≡ module_said self }
    {
        match self {
            Said::Module(module) => Ok(module),
            said => Err(said),
        }
    }

    /// What it makes fail, or the statement where it is another.
    pub fn into_failing(self) -> Result<FailingLine, Said>
        ensures { result_ok result ≡ failing_said self }
    {
        match self {
            Said::Failing(failing) => Ok(failing),
            said => Err(said),
        }
    }
}
