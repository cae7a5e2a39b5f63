//! What the definitions say together.

ghost use Rattle.lx_iter.specs.Expansion.{PackedExpands};

/// The iterated data that a page is written in gives the page.
pub fn packed_expands()
    ensures { PackedExpands }
{}
