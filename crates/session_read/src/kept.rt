//! The lists of a session that are kept as text, read line by line.

ghost use Rattle.std.specs.Prelude.{◌≡◌, ◌∷◌, ◌<◌, [], length, IfOk, IfSome, MatchOption};
ghost use Rattle.session_model.specs.Kept.{said_in, module_in_line, failure_in_line};

use crate::lines::first_line;
use crate::statements::read_line;
use lx_types::{Fail, NoMemory};
use session_model::{FailingLine, LineKind, ModLine};
use std::alloc::Global;

/// The first line of a text that is of a kind, and what stands after it.
#[derive(Drop)]
pub struct KeptCut<'a, T> {
    pub line: T,
    pub after: &'a [u8],
}

/// Lines of a kind that are read again.
pub trait ReadLine: LineKind {
    /// What a line says, where it is of the kind.
    fn in_line(alloc: Global, line: &[u8]) -> Result<Option<Self>, NoMemory>
        ensures { IfOk result (λ said. said ≡ Self.in_line line.now) };
}

impl ReadLine for ModLine {
    fn in_line(alloc: Global, line: &[u8]) -> Result<Option<ModLine>, NoMemory>
        ensures { IfOk result (λ said. said ≡ module_in_line line.now) }
    {
        match read_line(alloc, line) {
            Ok(Some(said)) => Ok(said.into_module().ok()),
            Ok(None) | Err(Fail::Said(_)) => Ok(None),
            Err(Fail::NoMemory) => Err(NoMemory),
        }
    }
}

impl ReadLine for FailingLine {
    fn in_line(alloc: Global, line: &[u8]) -> Result<Option<FailingLine>, NoMemory>
        ensures { IfOk result (λ said. said ≡ failure_in_line line.now) }
    {
        match read_line(alloc, line) {
            Ok(Some(said)) => Ok(said.into_failing().ok()),
            Ok(None) | Err(Fail::Said(_)) => Ok(None),
            Err(Fail::NoMemory) => Err(NoMemory),
        }
    }
}

/// The first line of a kind that a text has. `None` comes exactly where it has none. The names of the line are copied.
pub fn first_kept<T: ReadLine + Drop>(
    alloc: Global,
    text: &[u8],
) -> Result<Option<KeptCut<'_, T>>, NoMemory>
    ensures lines { IfOk result (λ first. MatchOption first (said_in T.in_line text.now ≡ [])
        (λ cut. said_in T.in_line text.now ≡ cut.line ∷ said_in T.in_line cut.after.now)) }
    ensures shorter { IfOk result (λ first. IfSome first (λ cut. length cut.after.now < length text.now)) }
{
    let mut left = text;
    while !left.is_empty() {
        let cut = first_line(left);
        left = cut.after;
        if let Some(line) = T::in_line(alloc, cut.line)? {
            return Ok(Some(KeptCut { line, after: left }));
        }
    }
    Ok(None)
}
