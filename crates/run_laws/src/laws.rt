//! Laws, each the contract of a function that does nothing.

ghost use Rattle.run_laws.specs.Bridge.{HeldAsLinked, RunsByLinks};
ghost use Rattle.run_laws.specs.BuiltModules.{BuiltAreOfLinks, BuiltIsOfLink};
ghost use Rattle.run_laws.specs.BuiltResources.{BuiltHasNoResources};

/// What a session builds holds, in every state that a legal history leads to, the bytes that its link means: they are those that the
/// loader has of the file, with its fixups.
pub fn built_bytes_are_held()
    ensures { HeldAsLinked }
{
    layer_laws::linked_bytes_are_loaded();
    layer_laws::linked_files_are_read();
    run_model::reached_modules_stand();
}

/// A run of scripts over modules of which some were built, by the bytes that the loader has of the files, is a run of them
/// by the bytes that the links mean of what was built: its history, its merge with the scripts, and so each reply in it.
pub fn runs_by_links()
    ensures { RunsByLinks }
{
    layer_laws::linked_bytes_are_loaded();
    layer_laws::linked_files_are_read();
    load_model::agreement_is_enough();
    load_model::histories_grow();
    run_model::reached_modules_stand();
    session_model::agreement_is_enough();
}

/// A module that the session builds has no resources: the header of its file counts none ("32-bit Linear
/// eXecutable Module Format": "LX Header").
pub fn built_modules_have_no_resources()
    ensures { BuiltHasNoResources }
{
    layer_laws::linked_images_fit();
    run_model::written_files_have_no_resources();
}

/// A module that the session builds is, in the session's library, what its link is: its name, flags, start, objects and import
/// modules are those of the link and its layout; its entry points are the link's exports, asked by their ordinals and by their
/// names, and no others; none of its pages is invalid; and it has no resources ("32-bit Linear eXecutable Module Format": "LX
/// Header", "Object Table", "Object Page Table", "Entry Table").
pub fn built_modules_are_of_their_links()
    ensures each { BuiltIsOfLink }
    ensures all { BuiltAreOfLinks }
{
    layer_laws::linked_files_are_read();
    layer_laws::entries_are_exports();
    built_modules_have_no_resources();
}
