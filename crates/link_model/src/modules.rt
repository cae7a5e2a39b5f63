//! The chosen modules.

ghost use Rattle.std.specs.Prelude.{◌≡◌, IfOk, map, option_copied};
ghost use Rattle.link_model.specs.Choosing.{module_of, modules_of};

use crate::Pick;
use lx_types::NoMemory;
use obj_types::{LinkInput, ObjModule};
use std::alloc::Global;

/// The module of a pick, where it is there.
fn module_at<'a>(input: &'a LinkInput, pick: &Pick) -> Option<&'a ObjModule>
    ensures { option_copied result ≡ module_of input.entry.now pick.now }
{
    let list = if pick.lib {
        &input.libs
    } else {
        &input.objects
    };
    list.as_slice().get(pick.index as usize)
}

/// The modules of these picks.
pub fn modules_at<'a>(
    alloc: Global,
    input: &'a LinkInput,
    picks: &[Pick],
) -> Result<Vec<&'a ObjModule>, NoMemory>
    ensures { IfOk result (λ modules. map (λ m. m.now) modules.items ≡ modules_of input.entry.now picks.now) }
{
    let mut modules = Vec::new(alloc);
    for pick in picks {
        if let Some(object) = module_at(input, pick) {
            modules.push(object)?;
        }
    }
    Ok(modules)
}
