//! What a command comes to: what is said, what was refused, where that is what is said, and what a map is of.
ghost use Rattle.std.proofs.Props.{props};
ghost use Rattle.file_commands.specs.Telling.{TellsOf};

use answer_model::{DONE, Said};
use lx_types::Bytes;
use refusal_text::{LinkFiles, Refused};

/// What is said, and what was refused: the text of a refusal is that of its value. Beside a map there is the link that it is of.
#[derive(Drop)]
pub struct Told {
    pub said: Said,
    pub refused: Option<Refused>,
    pub mapped: Option<LinkFiles>,
    pub ghost tied: { TellsOf refused said } by { Prim.hlevel props },
}

impl Told {
    ghost use Rattle.std.specs.Prelude.{◌≡◌, true};
    ghost use Rattle.refusal_text.specs.Refusals.{said_of};
    ghost use Rattle.file_commands.specs.Telling.{is_plain};

    /// Nothing was refused, and this is said.
    pub fn done(text: Bytes) -> Told
        ensures { result.said ≡ record { status = 0; text = text } }
    {
        Told {
            said: Said { status: DONE, text },
            refused: None,
            mapped: None,
        }
    }

    /// This map of a link is said.
    pub fn map(text: Bytes, mapped: LinkFiles) -> Told
        ensures { result.said ≡ record { status = 0; text = text } }
    {
        Told {
            said: Said { status: DONE, text },
            refused: None,
            mapped: Some(mapped),
        }
    }

    /// What is said where nothing is refused: all was done, or the words are no command.
    pub fn plain(said: Said) -> Told
        requires { is_plain said ≡ true }
        ensures { result.said ≡ said }
    {
        Told {
            said,
            refused: None,
            mapped: None,
        }
    }

    /// What is said of a refusal, which was made before.
    pub fn of(said: Said, refused: Refused) -> Told
        requires { said ≡ said_of refused }
        ensures { result.said ≡ said }
    {
        Told {
            said,
            refused: Some(refused),
            mapped: None,
        }
    }
}
