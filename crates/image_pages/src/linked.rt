//! The objects of a linked module in memory.

ghost use Rattle.std.specs.Prelude.{◌≡◌, ◌<◌, ◌^◌, IfOk, length};
ghost use Rattle.lx_types.specs.Answers.{Answers};
ghost use Rattle.obj_types.specs.Input.{WholeInput};
ghost use Rattle.image_model.specs.LinkedFile.{IsLinkedFile};
ghost use Rattle.lx_model.specs.Module.{IsRead, parts_of};
ghost use Rattle.image_pages.specs.Memory.{IsMemory, RefusesMemory};

use crate::alone::loaded_alone;
use crate::laws::linked_modules_load_alone;
use crate::refusals::ImageRefusal;
use layer_laws::{input_range, linked_bytes_are_loaded, linked_files_are_read};
use link_core::{failed_as, link};
use link_model::LaidObject;
use lx_read::read_faultless;
use lx_types::{Bytes, Fail, Module, NoMemory};
use obj_types::LinkInput;
use std::alloc::Global;

// The module of the input's linked file, read back.
fn linked_module(alloc: Global, input: &LinkInput, file: Vec<u8>) -> Result<Module, NoMemory>
    requires whole { WholeInput input.now }
    requires linked { IsLinkedFile input.now file.items }
    requires short { length file.items < 2 ^ 32 }
    ensures parts { IfOk result (λ parts. parts ≡ parts_of file.items) }
    ensures read { IfOk result IsRead }
{
    input_range(input);
    linked_files_are_read();
    read_faultless(alloc, file)
}

/// The objects of the module that the input is linked to, each with its bytes where all stand at their linked bases: the
/// module's file is read back, and its pages are fixed as the loader fixes them. The input is as it was then; after want of
/// memory it may be anything.
pub fn memory(
    alloc: Global,
    input: &mut LinkInput,
) -> Result<Vec<(LaidObject, Bytes)>, Fail<ImageRefusal>>
    requires whole { WholeInput input.old }
    ensures memory { Answers result (λ rows. IsMemory input.old rows.items) (λ refusal. RefusesMemory input.old refusal) }
    ensures same { Answers result (λ _. input.new ≡ input.old) (λ _. input.new ≡ input.old) }
{
    input_range(input);
    linked_files_are_read();
    linked_bytes_are_loaded();
    linked_modules_load_alone();
    match link(alloc, input) {
        Err(fail) => Err(failed_as(fail, ImageRefusal::Link)),
        Ok(file) => loaded_alone(alloc, linked_module(alloc, input, file)?),
    }
}
