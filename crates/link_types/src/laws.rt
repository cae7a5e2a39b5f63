//! A law of symbols.

ghost use Rattle.link_types.specs.Finding.{FindsMeanings};

/// `find` of the symbols of a link gives each external the meaning that the rules of linking give it.
#[tactic(auto, using(crate::proofs::FindMeans::finds_meanings))]
pub fn find_gives_meanings()
    ensures { FindsMeanings }
{}
