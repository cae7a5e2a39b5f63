//! What holds of the counts of any process: the premises of a load and of a free.

ghost use Rattle.mod_refs.specs.CountLaws.{CountsHaveRoom, HeldIsCounted};

/// Each module of the order of a module that is held has a count, and the counts of a library of up to 64
/// modules stay below 2^32 - 1 where no module has more than 65,535 loads.
pub fn loads_are_counted()
    ensures counted { HeldIsCounted }
    ensures room { CountsHaveRoom }
{}
