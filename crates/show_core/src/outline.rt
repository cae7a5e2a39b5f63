//! Parts with a heading and lines, and how lists become parts.

ghost use Rattle.std.specs.Prelude.{◌≡◌, ◌++◌, ◌∷◌, [], length, OnOk};
ghost use Rattle.show_model.specs.Outlines.{tallies};

use line_words::{Word, push_joined};
use lx_types::{Bytes, NoMemory, Seq};
use show_model::Part;
use std::alloc::Global;

/// A line, or want of memory.
pub type Line = Result<Bytes, NoMemory>;

/// What is told in one line of a list. Items count from 1; the context is what the list is part of.
pub trait Told<C> {
    fn line<'x>(&'x self, alloc: Global, number: u64, context: &'x C) -> Line;
}

/// A line of words, each after its kind: `line!(alloc; Count 3, Text b"bytes")`.
#[macro_export]
macro_rules! line {
    ($alloc:expr; $($kind:ident $value:expr),+) => { $crate::outline::line_of($alloc, &[$(Word::$kind($value)),+]) };
}

/// A line of words with a blank between each two. An empty text is no word.
pub fn line_of(alloc: Global, words: &[Word<'_>]) -> Line {
    let mut text = Vec::new(alloc);
    for &word in words {
        if !matches!(word, Word::Text([])) {
            if !text.is_empty() {
                text.push(b' ')?;
            }
            push_joined(&mut text, &[word])?;
        }
    }
    Ok(Seq::from_vec(text))
}

/// Adds a part.
pub fn add(
    alloc: Global,
    out: &mut Vec<Part>,
    heading: &str,
    lines: Vec<Bytes>,
) -> Result<(), NoMemory>
    ensures { OnOk result (tallies out.new.items ≡ tallies out.old.items ++ (heading.now, length lines.items) ∷ []) }
{
    let heading = Vec::from_slice(alloc, heading.as_bytes())?;
    out.push(Part {
        heading: Seq::from_vec(heading),
        lines: Seq::from_vec(lines),
    })?;
    Ok(())
}

/// Adds the part of a list, with a line for each item.
pub fn add_list<C, T: Told<C>>(
    alloc: Global,
    out: &mut Vec<Part>,
    heading: &str,
    items: &[T],
    context: &C,
) -> Result<(), NoMemory>
    ensures { OnOk result (tallies out.new.items ≡ tallies out.old.items ++ (heading.now, length items.now) ∷ []) }
{
    let mut lines = Vec::new(alloc);
    let mut number = 0u64;
    for item in items {
        number = number.wrapping_add(1);
        lines.push(item.line(alloc, number, context)?)?;
    }
    add(alloc, out, heading, lines)
}

/// The same of a list as object modules hold it.
pub fn add_seq<C, T: Told<C>>(
    alloc: Global,
    out: &mut Vec<Part>,
    heading: &str,
    items: &Seq<T>,
    context: &C,
) -> Result<(), NoMemory>
    ensures { OnOk result (tallies out.new.items ≡ tallies out.old.items ++ (heading.now, length items.now) ∷ []) }
{
    add_list(alloc, out, heading, items.as_slice(), context)
}
