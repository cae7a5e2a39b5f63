//! What the definitions say together.

ghost use Rattle.base_pick.specs.LeastPlaces.{LeastIsFound};

/// An object that does not get its linked base gets the least free place, where there is one.
pub fn least_place_is_found()
    ensures { LeastIsFound }
{}
