//! What stands in front of bytes.

ghost use Rattle.std.specs.Prelude.{◌≡◌, ◌≤◌, length, map, IsTrue};
ghost use Rattle.std.specs.List.{prefix_len};
ghost use Rattle.dump_model.specs.Words.{is_in_word};
ghost use Rattle.dump_read.specs.Taken.{is_front, is_begun};
ghost use Rattle.dump_read.specs.Settled.{IsPlace};

/// How many bytes stand in front of the first blank or the end of the line.
pub(crate) fn word_len(bytes: &[u8]) -> usize
    ensures value { result ≡ prefix_len (λ b. is_in_word b) bytes.now }
    ensures within { result ≤ length bytes.now }
{
    bytes
        .iter()
        .take_while(|b| **b != b' ' && **b != b'\n')
        .count()
}

pub(crate) fn begins_with(bytes: &[u8], front: &[u8]) -> bool
    ensures front { result ≡ is_front front.now bytes.now }
    ensures within { IsTrue result → length front.now ≤ length bytes.now }
{
    bytes.starts_with(front)
}

/// Which of some texts bytes begin with, and how long it is.
pub(crate) fn place_of(choices: &[&[u8]], bytes: &[u8]) -> Option<(usize, usize)>
    ensures { IsPlace (map (λ p. p.now) choices.now) bytes.now result }
{
    let mut k = 0;
    for text in choices {
        if begins_with(bytes, text) {
            return Some((k, text.len()));
        }
        k += 1;
    }
    None
}

/// Whether one of some texts begins with bytes.
pub(crate) fn any_begins_with(choices: &[&[u8]], bytes: &[u8]) -> bool
    ensures { result ≡ is_begun (map (λ p. p.now) choices.now) bytes.now }
{
    for text in choices {
        if begins_with(text, bytes) {
            return true;
        }
    }
    false
}
