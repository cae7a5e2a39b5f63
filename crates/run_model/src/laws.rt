//! Laws over the definitions, each the contract of a function that does nothing.

ghost use Rattle.run_model.specs.Resources.{WrittenHasNoResources};
ghost use Rattle.run_model.specs.Standing.{ReachedStand};

/// What a process reaches is fit, and its objects stand at multiples of 65,536 with their ends at 20000000h at most: in
/// every legal history, wherever its residences are.
pub fn reached_modules_stand()
    ensures { ReachedStand }
{
    load_model::reached_is_fit();
    load_model::residents_are_reached();
    load_model::residences_stand();
    lx_model::order_is_reach();
}

/// A file that is written has no resources: its header counts none ("32-bit Linear eXecutable Module
/// Format": "LX Header", "Resource Table").
pub fn written_files_have_no_resources()
    ensures { WrittenHasNoResources }
{
    image_model::sections_read_again();
}
