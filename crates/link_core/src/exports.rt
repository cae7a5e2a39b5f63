//! The exports of a link, and where each leads.

ghost use Rattle.std.specs.Prelude.{◌≡◌, ◌++◌, IfOk, OnOk, map, option_map, option_copied};
ghost use Rattle.link_fix.specs.Shown.{target_shown};
ghost use Rattle.link_core.specs.Exports as rules;

use link_fix::{Target, pair_of};
use link_place::of_symbol;
use link_types::{Places, Symbols};
use lx_types::NoMemory;
use obj_types::{Exp, Imp, LinkInput, ObjModule};
use std::alloc::Global;

// Adds exports, in order.
fn add_exports<'a>(found: &mut Vec<&'a Exp>, exports: &'a [Exp]) -> Result<(), NoMemory>
    ensures { OnOk result (map (λ x. x.now) found.new.items ≡ map (λ x. x.now) found.old.items ++ exports.entry.now) }
{
    for export in exports {
        found.push(export)?;
    }
    Ok(())
}

/// The exports: the EXPDEF records of these modules, in order, then those of EXPORTS.
pub fn exports_of<'a>(
    alloc: Global,
    input: &'a LinkInput,
    modules: &[&'a ObjModule],
) -> Result<Vec<&'a Exp>, NoMemory>
    ensures { IfOk result (λ found. map (λ x. x.now) found.items ≡ rules.exports_of (map (λ m. m.now) modules.entry.now) input.entry.now.def) }
{
    let mut found = Vec::new(alloc);
    for object in modules {
        add_exports(&mut found, object.exports.as_slice())?;
    }
    add_exports(&mut found, input.def.exports.as_slice())?;
    Ok(found)
}

/// What an export's internal name leads to.
pub fn lead_of(places: &Places, syms: &Symbols, export: &Exp) -> Option<Target>
    ensures { option_map target_shown result ≡ rules.lead_in places.now syms.now export.now }
{
    match syms.global(export.internal.bytes()) {
        None => None,
        Some(symbol) => of_symbol(places, symbol),
    }
}

/// The import pair of an export that leads to another module.
pub fn forwarded<'a>(places: &Places, syms: &'a Symbols, export: &Exp) -> Option<&'a Imp>
    ensures { option_copied result ≡ rules.pair_in places.now syms.entry.now export.now }
{
    match lead_of(places, syms, export) {
        None => None,
        Some(target) => pair_of(syms.imports(), target),
    }
}
