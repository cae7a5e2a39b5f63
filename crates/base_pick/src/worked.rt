//! Worked values of the definitions.

ghost use Rattle.base_pick.specs.WorkedPlaces.{WorkedPlaces};

/// Where the objects of some modules stand, and one for which there is no place.
pub fn places_worked()
    ensures { WorkedPlaces }
{}
