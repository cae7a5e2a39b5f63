//! The modules that object files and libraries give.
ghost use Rattle.std.specs.Prelude.{◌≡◌, [], OnOk};
ghost use Rattle.tool_read.specs.Readings.{WholeInputFile, input_item};
ghost use Rattle.tool_read.specs.Steps.{AreWhole, Gains};

use crate::inputs::Input;
use lx_types::NoMemory;
use obj_types::ObjModule;
use refusal_text::LinkFile;
use std::alloc::Global;

/// The modules of the object files, and those of the libraries.
#[derive(Drop)]
pub struct Modules {
    pub objects: Vec<ObjModule>,
    pub libs: Vec<ObjModule>,
    pub files: Vec<LinkFile>,
}

// How many modules a library has.
fn library_of(input: &Input) -> Option<usize> {
    match input {
        Input::Object(_) => None,
        Input::Library(modules) => Some(modules.as_slice().len()),
    }
}

impl Modules {
    pub fn new(alloc: Global) -> Modules
        ensures objects { result.objects.items ≡ [] }
        ensures libs { result.libs.items ≡ [] }
    {
        Modules {
            objects: Vec::new(alloc),
            libs: Vec::new(alloc),
            files: Vec::new(alloc),
        }
    }

    /// Adds the modules of a file of this name after the others.
    pub fn add(&mut self, name: String, input: Input) -> Result<(), NoMemory>
        requires whole { AreWhole self.old }
        requires input { WholeInputFile input }
        ensures gains { OnOk result (Gains self.old (input_item input) self.new) }
        ensures whole { OnOk result (AreWhole self.new) }
    {
        self.files.push(LinkFile {
            name,
            library: library_of(&input),
        })?;
        match input {
            Input::Object(module) => self.objects.push(module)?,
            Input::Library(modules) => {
                let mut modules = modules.into_vec();
                self.libs.append(&mut modules)?;
            }
        }
        Ok(())
    }
}
