//! Worked values of the definitions, from outside them: each function's contract is a table of values that the
//! definitions give.

ghost use Rattle.map_model.specs.Worked.{WorkedMap, WorkedLink, WorkedOrder, WorkedLines};

/// The map of a library of one segment, and what the map of another has: communals, publics in order, constants and an
/// import, but no debugger's symbols.
pub fn links_are_mapped()
    ensures one_object { WorkedMap }
    ensures two_modules { WorkedLink }
    ensures in_order { WorkedOrder }
{}

/// Lines of imports, communals and constants, empty names among them.
pub fn lines_are_told()
    ensures { WorkedLines }
{}
