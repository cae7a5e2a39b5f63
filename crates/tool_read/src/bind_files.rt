//! The files of `bind`, loaded and read in turn.
ghost use Rattle.std.specs.Prelude.{◌≡◌, ◌≤◌, ◌∷◌, [], IfOk, length, sum_by};
ghost use Rattle.lx_model.specs.Module.{IsRead};
ghost use Rattle.res_model.specs.ResFile.{AreApart};
ghost use Rattle.answer_model.specs.Loading.{file_limit};
ghost use Rattle.answer_model.specs.Items.{linked, module_file, resource_file, resources};
ghost use Rattle.tool_read.specs.Readings.{asked};
ghost use Rattle.tool_read.specs.Steps.{ReadsInTurn};

use crate::resources::read_resources;
use crate::sessions::read_module;
use lx_ports::Files;
use lx_types::{Fail, Module, Seq};
use refusal_text::Refused;
use res_model::ResItem;
use std::alloc::Global;

/// A module, and what is to be bound to it.
#[derive(Drop)]
pub struct Binding {
    pub target: Module,
    pub items: Seq<ResItem>,
}

/// The module and the items of a resource file, which are loaded and read in turn: what the items are is not looked at before
/// the module was read.
pub fn read_binding<F: Files>(
    alloc: Global,
    files: &mut F,
    name: &str,
    file: &str,
) -> Result<Binding, Fail<Refused>>
    ensures read { ReadsInTurn (λ b items. items ≡ linked b.target ∷ resources b.items ∷ [])
        (asked module_file name.now ∷ asked resource_file file.now ∷ [])
        (F.state files.old) (F.state files.new) result }
    ensures target { IfOk result (λ b. IsRead b.target) }
    ensures apart { IfOk result (λ b. AreApart b.items) }
    ensures small { IfOk result (λ b. sum_by (λ i. length i.bytes) b.items ≤ file_limit) }
{
    match read_module(alloc, files, name) {
        Ok(target) => match read_resources(alloc, files, file) {
            Ok(items) => Ok(Binding { target, items }),
            Err(why) => Err(why),
        },
        Err(why) => Err(why),
    }
}
