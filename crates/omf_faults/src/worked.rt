//! The definitions tried on contents whose first fault is known.

ghost use Rattle.omf_faults.specs.Worked.{EachIsTold};

/// Contents with two faults each: the first one is told.
pub fn the_first_of_two_faults()
    ensures { EachIsTold }
{}
