//! Laws over the definitions, each the contract of a function that does nothing.

ghost use Rattle.res_laws.specs.Binding.{BoundFilesMean};
ghost use Rattle.res_laws.specs.Serving.{BoundModulesServe};

/// The file that `res_bind::bind_res` answers is read back as the old module, with one object more where there are items:
/// its parts, the bytes and the records of its pages and what fixups make of them stand, wherever no byte of the header's
/// fields that are set is read as something else too. `res_core::find` answers where each item lies, with the item's bytes,
/// and nothing else ("32-bit Linear eXecutable Module Format": "Resource Table").
pub fn bound_files_mean()
    ensures { BoundFilesMean }
{}

/// In whatever library the module stands, the one with its resources bound serves in its place: the modules are a library
/// too, each is loaded with the same others in the same order, is fit where it was, and entry points keep their spots.
pub fn bound_modules_serve()
    ensures { BoundModulesServe }
{}
