//! The lines of a map.

ghost use Rattle.std.specs.Prelude.{◌≡◌, ◌++◌, OnOk, map};
ghost use Rattle.std.specs.List.{flat_map, enumerate_from};
ghost use Rattle.line_words.specs.Words.{word_text};
ghost use Rattle.map_model.specs.Listed.{contribution};
ghost use Rattle.map_model.specs.Lines.{map_line, object_line, segment_line, common_line, public_line, constant_line, entry_word, import_line};
ghost use Rattle.map_core.specs.Shown.{by_address, by_name};

use line_words::{Word, push_line};
use link_model::LaidObject;
use lx_types::{EntryKey, Name};
use obj_types::{Common, Imp, Seg};
use std::alloc::AllocError;

/// The first line, of a module with this name.
#[tactic(auto, unfolding(map_model::specs::Lines::map_line))]
pub fn push_head(out: &mut Vec<u8>, name: &Name, count: u64) -> Result<(), AllocError>
    ensures { OnOk result (out.new.items ≡ out.old.items ++ map_line name.now count) }
{
    let name = Word::Name(name.bytes());
    push_line(
        out,
        &[
            Word::Text(b"map"),
            name,
            Word::Text(b"objects"),
            Word::Count(count),
        ],
    )
}

#[tactic(auto, unfolding(map_model::specs::Lines::object_line))]
fn push_object(out: &mut Vec<u8>, number: u64, object: &LaidObject) -> Result<(), AllocError>
    ensures { OnOk result (out.new.items ≡ out.old.items ++ object_line (number, object.now)) }
{
    push_line(
        out,
        &[
            Word::Text(b"object"),
            Word::Count(number),
            Word::Hex(object.base),
            Word::Text(b"size"),
            Word::Number(object.size),
            Word::Text(b"flags"),
            Word::Hex(object.flags),
        ],
    )
}

/// The lines of the objects.
pub fn push_objects(out: &mut Vec<u8>, objects: &[LaidObject]) -> Result<(), AllocError>
    ensures { OnOk result (out.new.items ≡ out.old.items ++ flat_map object_line (enumerate_from 1 objects.now)) }
{
    let mut number = 0u64;
    for object in objects {
        number += 1;
        push_object(out, number, object)?;
    }
    Ok(())
}

/// The line of a contribution at an address, with its number in its module and with the number of that module.
#[tactic(auto, unfolding(map_model::specs::Lines::segment_line))]
pub fn push_segment(
    out: &mut Vec<u8>,
    by: u64,
    index: u64,
    seg: &Seg,
    at: u32,
) -> Result<(), AllocError>
    ensures { OnOk result (out.new.items ≡ out.old.items ++ segment_line (contribution by (index, seg.now)) at) }
{
    push_line(
        out,
        &[
            Word::Text(b"segment"),
            Word::Count(index),
            Word::Hex(at),
            Word::Number(seg.len),
            Word::Name(seg.name.bytes()),
            Word::Name(seg.class.bytes()),
            Word::Count(by),
        ],
    )
}

/// The line of a communal at an address.
#[tactic(auto, unfolding(map_model::specs::Lines::common_line))]
pub fn push_common(out: &mut Vec<u8>, common: &(Name, Common), at: u32) -> Result<(), AllocError>
    ensures { OnOk result (out.new.items ≡ out.old.items ++ common_line common.now at) }
{
    let name = Word::Name(common.0.bytes());
    push_line(
        out,
        &[
            Word::Text(b"common"),
            Word::Hex(at),
            Word::Number(common.1.len),
            name,
        ],
    )
}

#[tactic(auto, unfolding(map_model::specs::Lines::public_line))]
fn push_place(out: &mut Vec<u8>, place: (u32, &[u8])) -> Result<(), AllocError>
    ensures { OnOk result (out.new.items ≡ out.old.items ++ public_line (by_address place.entry)) }
{
    push_line(
        out,
        &[
            Word::Text(b"public"),
            Word::Hex(place.0),
            Word::Name(place.1),
        ],
    )
}

/// The lines of the publics that have a place.
pub fn push_places(out: &mut Vec<u8>, places: &[(u32, &[u8])]) -> Result<(), AllocError>
    ensures { OnOk result (out.new.items ≡ out.old.items ++ flat_map public_line (map by_address places.now)) }
{
    for place in places {
        push_place(out, *place)?;
    }
    Ok(())
}

#[tactic(auto, unfolding(map_model::specs::Lines::constant_line))]
fn push_value(out: &mut Vec<u8>, value: (&[u8], u32)) -> Result<(), AllocError>
    ensures { OnOk result (out.new.items ≡ out.old.items ++ constant_line (by_name value.entry)) }
{
    push_line(
        out,
        &[
            Word::Text(b"constant"),
            Word::Hex(value.1),
            Word::Name(value.0),
        ],
    )
}

/// The lines of the other publics.
pub fn push_values(out: &mut Vec<u8>, values: &[(&[u8], u32)]) -> Result<(), AllocError>
    ensures { OnOk result (out.new.items ≡ out.old.items ++ flat_map constant_line (map by_name values.now)) }
{
    for value in values {
        push_value(out, *value)?;
    }
    Ok(())
}

fn entry_word(entry: &EntryKey) -> Word<'_>
    ensures { word_text result ≡ entry_word entry.entry.now }
{
    match entry {
        EntryKey::Ordinal(ordinal) => Word::Ordinal(*ordinal),
        EntryKey::Named(name) => Word::Name(name.bytes()),
    }
}

#[tactic(auto, unfolding(map_model::specs::Lines::import_line))]
fn push_import(out: &mut Vec<u8>, import: &Imp) -> Result<(), AllocError>
    ensures { OnOk result (out.new.items ≡ out.old.items ++ import_line import.now) }
{
    let name = Word::Name(import.name.bytes());
    let from = Word::Name(import.module.bytes());
    push_line(
        out,
        &[Word::Text(b"import"), name, from, entry_word(&import.entry)],
    )
}

/// The lines of the import pairs.
pub fn push_imports(out: &mut Vec<u8>, imports: &[Imp]) -> Result<(), AllocError>
    ensures { OnOk result (out.new.items ≡ out.old.items ++ flat_map import_line imports.now) }
{
    for import in imports {
        push_import(out, import)?;
    }
    Ok(())
}
