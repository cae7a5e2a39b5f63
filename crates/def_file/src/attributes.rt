//! The words of attributes.

ghost use Rattle.std.specs.Prelude.{◌≡◌};
ghost use Rattle.lx_types.specs.Answers.{if_said, Gives};
ghost use Rattle.def_model.specs.Attributes.{agreed, with_word, attrs_with};

use def_model::{DefKind, Pair, Words};
use lx_types::Fail;
use obj_types::Attrs;

/// A word may be repeated, and the other word of its pair may not stand beside it.
pub fn agreed(before: Option<bool>, on: bool) -> Result<Option<bool>, Fail<DefKind>>
    ensures { Gives (λ x. x) if_said result (agreed before on) }
{
    match before {
        Some(word) if word != on => Err(Fail::Said(DefKind::Conflict)),
        _ => Ok(Some(on)),
    }
}

/// The words with one more.
#[tactic(auto, unfolding(def_model::specs::Attributes::with_word))]
pub fn with_word(words: Words, pair: Pair, on: bool) -> Result<Words, Fail<DefKind>>
    ensures { Gives (λ x. x) if_said result (with_word words pair on) }
{
    let mut more = words;
    match pair {
        Pair::Write => more.write = agreed(words.write, on)?,
        Pair::Read => more.read = agreed(words.read, on)?,
        Pair::Shared => more.shared = agreed(words.shared, on)?,
        Pair::Preload => more.preload = agreed(words.preload, on)?,
        Pair::Conforming => more.conforming = agreed(words.conforming, on)?,
        Pair::Iopl => more.iopl = agreed(words.iopl, on)?,
    }
    Ok(more)
}

/// Attributes as the words change them.
pub fn attrs_with(start: Attrs, words: Words) -> Attrs
    ensures { result ≡ attrs_with start words }
{
    Attrs {
        read: words.read.unwrap_or(start.read),
        write: words.write.unwrap_or(start.write),
        exec: words.read.is_some() || start.exec,
        shared: words.shared.unwrap_or(start.shared),
        preload: words.preload.unwrap_or(start.preload),
        conforming: words.conforming.unwrap_or(start.conforming),
        iopl: words.iopl.unwrap_or(start.iopl),
    }
}
