//! What the modules and the definition file of a link ask for beside their bytes.

ghost use Rattle.std.specs.Prelude.{◌≡◌, IfOk, map};
ghost use Rattle.link_model.specs.Header.{auto_data};
ghost use Rattle.link_model.specs.Link.{link_of, exports};
ghost use Rattle.link_types.specs.Places.{ArePlaces};

use crate::auto::auto_of;
use crate::exports::exports_of;
use link_model::modules_at;
use link_types::{Places, Symbols};
use lx_types::NoMemory;
use obj_types::{Exp, LinkInput};
use std::alloc::Global;

/// What a link's header and tables are asked to have.
#[derive(Drop)]
pub struct Asked<'a> {
    /// The automatic data object, or 0.
    pub auto: u32,
    /// The exports: those of the chosen modules, in order, then those of EXPORTS.
    pub exports: Vec<&'a Exp>,
}

/// What a link of these chosen modules asks for, where its groups have these places.
pub fn asked_of<'a>(
    alloc: Global,
    input: &'a LinkInput,
    syms: &Symbols,
    places: &Places,
) -> Result<Asked<'a>, NoMemory>
    ensures auto { IfOk result (λ asked. ArePlaces (link_of input.entry.now syms.now.chosen) places.now
        → asked.auto ≡ auto_data (link_of input.entry.now syms.now.chosen)) }
    ensures exports { IfOk result (λ asked. map (λ x. x.now) asked.exports.items ≡ exports (link_of input.entry.now syms.now.chosen)) }
{
    let modules = modules_at(alloc, input, syms.chosen())?;
    let auto = auto_of(places, modules.as_slice())?;
    let exports = exports_of(alloc, input, modules.as_slice())?;
    Ok(Asked { auto, exports })
}
