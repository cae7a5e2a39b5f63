//! The lists of a session that may have millions of lines, each kept as the text of its lines.

ghost use Rattle.std.specs.Prelude.{◌≡◌, ◌∷◌, ◌++◌, [], ℕ, List, Option, IfOk};
ghost use Rattle.std.specs.Option.{option_to_list};
ghost use Rattle.session_model.specs.Kept.{said_in, module_in_line, failure_in_line, IsOneLine};

use crate::sessions::{FailingLine, ModLine};
use lx_types::NoMemory;
use std::alloc::Global;
use std::marker::{Model, PhantomData};

// The text with a line more.
fn with_text(text: Vec<u8>, line: &[u8]) -> Result<Vec<u8>, NoMemory>
    ensures { IfOk result (λ longer. longer.items ≡ text.items ++ (line.now ++ 0x0A ∷ [])) }
{
    let mut text = text;
    text.extend_from_slice(line)?;
    text.push(b'\n')?;
    Ok(text)
}

/// What lines of one kind say.
pub trait LineKind {
    /// What a line says, where it is of the kind.
    ghost in_line: { List ℕ → Option Self };
}

impl LineKind for ModLine {
    ghost in_line = { module_in_line };
}

impl LineKind for FailingLine {
    ghost in_line = { failure_in_line };
}

/// Lines of one kind. They take about as much memory as their text.
pub struct KeptLines<T: LineKind> {
    text: Vec<u8>,
    kind: PhantomData<T>,
}

// Dropped by a call, as lists are (`Seq`).
impl<T: LineKind> Drop for KeptLines<T> {
    fn drop(self) {
        let KeptLines { text, kind: _ } = self;
        drop(text);
    }
}

/// Lines that give modules.
pub type ModLines = KeptLines<ModLine>;

/// Lines that make an initialisation fail.
pub type FailingLines = KeptLines<FailingLine>;

impl<T: LineKind> Model for KeptLines<T> {
    ghost use Rattle.std.specs.Prelude.{List};
    ghost use Rattle.session_model.specs.Kept.{said_in, AreLines};

    ghost Value = { List T };

    ghost view = { λ lines. said_in T.in_line lines.text.items };

    ghost invariant = { λ lines. AreLines lines.text.items };
}

impl<T: LineKind> KeptLines<T> {
    /// No lines. It takes no memory.
    #[tactic(auto, unfolding(crate::specs::Lines::lines_in))]
    pub fn new(alloc: Global) -> KeptLines<T>
        ensures { result ≡ [] }
    {
        KeptLines {
            text: Vec::new(alloc),
            kind: PhantomData,
        }
    }

    /// The lines, and after them what a line says.
    #[tactic(auto, using(crate::proofs::KeptText::lines_longer))]
    pub fn with_line(self, line: &[u8]) -> Result<KeptLines<T>, NoMemory>
        requires { IsOneLine line.now }
        ensures { IfOk result (λ lines. lines ≡ self ++ option_to_list (T.in_line line.now)) }
    {
        let KeptLines { text, kind } = self;
        Ok(KeptLines {
            text: with_text(text, line)?,
            kind,
        })
    }

    /// A text that says the same.
    pub fn text(&self) -> &[u8]
        ensures { said_in T.in_line result.now ≡ self.now }
    {
        self.text.as_slice()
    }
}
