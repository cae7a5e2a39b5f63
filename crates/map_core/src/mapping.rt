//! The map of a link.

ghost use Rattle.std.specs.Prelude.{◌≡◌, IfOk, map};
ghost use Rattle.link_model.specs.Link.{Link, link_of};
ghost use Rattle.link_types.specs.Binding.{AreSymbolsOf, IsBound};
ghost use Rattle.link_types.specs.Layout.{IsLaidOut};
ghost use Rattle.map_model.specs.Maps.{IsMap};

use crate::contributions::{push_commons, push_modules};
use crate::lines::{push_head, push_imports, push_objects, push_places, push_values};
use crate::publics::{places_of, values_of};
use link_model::modules_at;
use link_types::{Layout, Symbols};
use lx_types::{Name, NoMemory};
use obj_types::{LinkInput, ObjModule};
use std::alloc::Global;

// The map of a link of these modules.
fn map_modules(
    alloc: Global,
    name: &Name,
    modules: &[&ObjModule],
    syms: &Symbols,
    lay: &Layout,
) -> Result<Vec<u8>, NoMemory>
    ensures { IfOk result (λ text. (l : Link) → l.modules ≡ map (λ m. m.now) modules.now → AreSymbolsOf l syms.now → IsLaidOut l lay.now
        → IsMap name.now l text.items) }
{
    let upper = name.to_uppercase(alloc)?;
    let objects = lay.objects();
    let places = places_of(alloc, lay, modules)?;
    let values = values_of(alloc, lay, modules)?;
    let mut out = Vec::new(alloc);
    push_head(&mut out, &upper, objects.len() as u64)?;
    push_objects(&mut out, objects)?;
    push_modules(&mut out, lay, modules)?;
    push_commons(&mut out, lay, syms.commons())?;
    push_places(&mut out, places.as_slice())?;
    push_values(&mut out, values.as_slice())?;
    push_imports(&mut out, syms.imports())?;
    Ok(out)
}

/// The map of a link with these symbols and this layout, where `input` is what is kept of its input, in time linear in the
/// input and the text but for the sorting of publics.
///
/// The first line has the module's name in upper case. Then come the objects; the contributions that are not debug, by
/// chosen module and segment; the communals; the publics that are not local, first those that have a place, by address and
/// name, then the constants, by name; and the import pairs. Addresses are those of the linked bases. Bases, addresses, values
/// and flags have eight hexadecimal digits, all other numbers are decimal, and names have their escapes, the empty one being
/// `%`.
pub(crate) fn map_kept(
    alloc: Global,
    name: &Name,
    input: &LinkInput,
    syms: &Symbols,
    lay: &Layout,
) -> Result<Vec<u8>, NoMemory>
    requires bound { IsBound input.now syms.now }
    requires laid { IsLaidOut (link_of input.now syms.now.chosen) lay.now }
    ensures { IfOk result (λ text. IsMap name.now (link_of input.now syms.now.chosen) text.items) }
{
    let modules = modules_at(alloc, input, syms.chosen())?;
    map_modules(alloc, name, modules.as_slice(), syms, lay)
}
