//! Laws of modules that are loaded alone, each the contract of a function that does nothing.

ghost use Rattle.image_pages.specs.Alone.{LinkedModulesLoadAlone};

/// A module that was linked and imports no other, and whose objects end at 20000000h at most, is a library alone, can be
/// loaded there, and stands well at its linked bases.
pub fn linked_modules_load_alone()
    ensures { LinkedModulesLoadAlone }
{}
