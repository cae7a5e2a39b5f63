//! What the definitions say together. Each law is the contract of a function that does nothing.

ghost use Rattle.memory_model.specs.Laws.{TouchedIsApart};

/// What objects hold is the same whatever pages were touched, so also where all were.
pub fn touches_change_nothing()
    ensures { TouchedIsApart }
{}
