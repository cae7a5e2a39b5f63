//! Worked values of the definitions, from outside them.

ghost use Rattle.res_model.specs.Worked.{WorkedBound, WorkedPlaces};
ghost use Rattle.res_model.specs.WorkedFile.{WorkedFile};

/// A file of one item, and its first fault after a change.
pub fn faults_are_placed()
    ensures { WorkedFile }
{}

/// Where items stand in the new object, and where that stands.
pub fn items_are_placed()
    ensures { WorkedPlaces }
{}

/// A file of one page with an item bound to it.
pub fn file_is_bound()
    ensures { WorkedBound }
{}
