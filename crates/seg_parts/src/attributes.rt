//! The attributes of segments, and the flags of their objects ("32-bit Linear eXecutable Module Format": "Object
//! Table").

ghost use Rattle.std.specs.Prelude.{◌≡◌, ◌-◌, map, find, drop, length, bytes_eq, codes, option_copied, IfOk};
ghost use Rattle.link_model.specs.Flags as rules;
ghost use Rattle.seg_parts.specs.Parts.{shown};
ghost use Rattle.seg_parts.specs.Attributes.{flags_in, attributes_in};

use crate::parts::Part;
use link_model::object_flags;
use lx_types::{Name, NoMemory};
use obj_types::{Attrs, DefFile, SegAttrs};
use std::alloc::Global;

fn ends_in_code(upper: &Name) -> bool
    ensures { result ≡ bytes_eq (drop (length upper.now - 4) upper.now) (codes "CODE") }
{
    let bytes = upper.bytes();
    &bytes[bytes.len().saturating_sub(4)..] == b"CODE".as_slice()
}

/// Whether a class is one of code: it ends in CODE, in any case of letters.
fn is_code_class(alloc: Global, class: &Name) -> Result<bool, NoMemory>
    ensures { IfOk result (λ is. is ≡ rules.is_code_class class.now) }
{
    let upper = class.to_uppercase(alloc)?;
    Ok(ends_in_code(&upper))
}

fn is_for(part: &Part<'_>, item: &SegAttrs) -> bool
    ensures { result ≡ rules.is_for (shown part.now) item.now }
{
    item.name == *part.name
        && match &item.class {
            None => true,
            Some(class) => *class == *part.class,
        }
}

fn item_for<'a>(items: &'a [SegAttrs], part: &Part<'_>) -> Option<&'a SegAttrs>
    ensures { option_copied result ≡ find (rules.is_for (shown part.now)) items.entry.now }
{
    items.iter().find(|item| is_for(part, item))
}

fn attributes_of(alloc: Global, def: &DefFile, part: &Part<'_>) -> Result<Attrs, NoMemory>
    ensures { IfOk result (λ attrs. attrs ≡ attributes_in def.now (shown part.now)) }
{
    match item_for(def.segs.as_slice(), part) {
        Some(item) => Ok(item.attrs),
        None => {
            if is_code_class(alloc, part.class)? {
                Ok(def.code)
            } else {
                Ok(def.plain)
            }
        }
    }
}

fn flags_of_part(alloc: Global, def: &DefFile, part: &Part<'_>) -> Result<u32, NoMemory>
    ensures { IfOk result (λ flags. flags ≡ flags_in def.now (shown part.now)) }
{
    Ok(object_flags(attributes_of(alloc, def, part)?, part.wide))
}

/// The flags of an object with each of these parts.
pub fn flags_of(alloc: Global, def: &DefFile, parts: &[Part<'_>]) -> Result<Vec<u32>, NoMemory>
    ensures { IfOk result (λ flags. flags.items ≡ map (flags_in def.now) (map shown parts.now)) }
{
    let mut flags = Vec::new(alloc);
    for part in parts {
        flags.push(flags_of_part(alloc, def, part)?)?;
    }
    Ok(flags)
}
