//! Laws of the modules, each the contract of a function that does nothing.

ghost use Rattle.gen_laws.specs.Laws.{ObjectsAreWritable, ObjectsHaveFiles, InputsAreWhole, DefinitionsMean, InputsLink, LinkedFilesAreShort};
ghost use Rattle.gen_laws.specs.Laws.{FirstGather, FirstAreFit, FirstHavePlaces, FirstHaveTotals};

use omf_write::writable_modules_have_files;

/// Each object module can be written as an object file ("Object Record Order").
pub fn objects_are_writable()
    ensures { ObjectsAreWritable }
{}

/// So it has an object file that is read as it.
pub fn objects_have_files()
    ensures { ObjectsHaveFiles }
{
    writable_modules_have_files();
}

/// What each module is linked from is whole.
pub fn inputs_are_whole()
    ensures { InputsAreWhole }
{}

/// Each definition file says what is linked.
pub fn definitions_mean()
    ensures { DefinitionsMean }
{}

/// No link of a module is refused.
pub fn inputs_link()
    ensures { InputsLink }
{}

/// The file that it is linked to is shorter than 2^32 bytes.
pub fn linked_files_are_short()
    ensures { LinkedFilesAreShort }
{
    inputs_are_whole();
}

/// The modules are a library, each can be loaded there, and there are places for all.
pub fn modules_load()
    ensures gather { FirstGather }
    ensures fit { FirstAreFit }
    ensures places { FirstHavePlaces }
{
    inputs_are_whole();
}

/// Whatever number of modules is asked for, there is what the generator tells of them.
pub fn modules_have_totals()
    ensures { FirstHaveTotals }
{
    inputs_are_whole();
    inputs_link();
}
