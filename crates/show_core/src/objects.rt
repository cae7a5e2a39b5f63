//! An object module ("Relocatable Object Module Format").

ghost use Rattle.std.specs.Prelude.{◌≡◌, ◌++◌, ◌∷◌, [], codes, count_by, length, OnOk};
ghost use Rattle.show_model.specs.Lists.{how_many, is_communal, object_lists};
ghost use Rattle.show_model.specs.Outlines.{tallies};

use crate::counts::bump;
use crate::line;
use crate::outline::{Line, add, add_list, add_seq};
use crate::segments::segment_name;
use crate::symbols::{common_lines, uses_of};
use line_words::Word;
use lx_types::NoMemory;
use obj_types::{
    FixAt, Goal, LOCATION_BYTE, LOCATION_FAR_16, LOCATION_FAR_32, LOCATION_LOADER_16,
    LOCATION_LOADER_32, LOCATION_OFFSET_16, LOCATION_OFFSET_32, LOCATION_SELECTOR, ObjModule,
    StartAt,
};
use show_model::Part;
use std::alloc::Global;

const LOCATIONS: [&str; 8] = [
    "byte",
    "16-bit offset",
    "selector",
    "16:16 pointer",
    "16-bit offset of the loader",
    "32-bit offset",
    "16:32 pointer",
    "32-bit offset of the loader",
];

// Where a kind of location stands in the table.
fn location_place(location: u8) -> usize {
    match location {
        LOCATION_BYTE => 0,
        LOCATION_OFFSET_16 => 1,
        LOCATION_SELECTOR => 2,
        LOCATION_FAR_16 => 3,
        LOCATION_LOADER_16 => 4,
        LOCATION_OFFSET_32 => 5,
        LOCATION_FAR_32 => 6,
        LOCATION_LOADER_32 => 7,
        _ => LOCATIONS.len(),
    }
}

fn add_fixups(alloc: Global, out: &mut Vec<Part>, fixes: &[FixAt]) -> Result<(), NoMemory>
    ensures { OnOk result (tallies out.new.items ≡ tallies out.old.items ++ (codes "fixups by location", 8) ∷ []) }
{
    let mut counts = vec![in alloc; 0; LOCATIONS.len()]?;
    for fix in fixes {
        bump(&mut counts, location_place(fix.loc));
    }
    add_list(alloc, out, "fixups by location", &LOCATIONS, &counts)
}

fn start_line(alloc: Global, m: &ObjModule, start: StartAt) -> Line {
    let (kind, index, name): (&[u8], u32, &[u8]) = match start.goal {
        Goal::Seg(seg) => (b"segment", seg, segment_name(m, seg)),
        Goal::Group(group) => (b"group", group, b""),
        Goal::Ext(ext) => (b"external name", ext, b""),
    };
    line!(alloc; Text kind, Number index, Text name, Text b"offset", Hex start.disp)
}

fn add_start(alloc: Global, out: &mut Vec<Part>, m: &ObjModule) -> Result<(), NoMemory>
    ensures { OnOk result (tallies out.new.items ≡ tallies out.old.items ++ (codes "start", how_many m.now.start) ∷ []) }
{
    let mut lines = Vec::new(alloc);
    if let Some(start) = m.start {
        lines.push(start_line(alloc, m, start)?)?;
    }
    add(alloc, out, "start", lines)
}

fn add_name(alloc: Global, out: &mut Vec<Part>, m: &ObjModule) -> Result<(), NoMemory>
    ensures { OnOk result (tallies out.new.items ≡ tallies out.old.items ++ (codes "object module", 1) ∷ []) }
{
    let mut lines = Vec::new(alloc);
    lines.push(line!(alloc; Text m.name.bytes())?)?;
    add(alloc, out, "object module", lines)
}

fn add_externals(alloc: Global, out: &mut Vec<Part>, m: &ObjModule) -> Result<(), NoMemory>
    ensures { OnOk result (tallies out.new.items ≡ tallies out.old.items ++ (codes "external names", length m.now.exts) ∷ []) }
{
    let uses = uses_of(alloc, m.exts.as_slice().len(), m.fixes.as_slice())?;
    add_seq(alloc, out, "external names", &m.exts, &uses)
}

fn add_communals(alloc: Global, out: &mut Vec<Part>, m: &ObjModule) -> Result<(), NoMemory>
    ensures { OnOk result (tallies out.new.items ≡ tallies out.old.items ++ (codes "communal names", count_by is_communal m.now.exts) ∷ []) }
{
    let lines = common_lines(alloc, m.exts.as_slice())?;
    add(alloc, out, "communal names", lines)
}

// The name, the segments, the groups and the names.
fn add_names(alloc: Global, out: &mut Vec<Part>, m: &ObjModule) -> Result<(), NoMemory>
    ensures { OnOk result (tallies out.new.items ≡ tallies out.old.items ++
        ((codes "object module", 1) ∷ (codes "segments", length m.now.segs) ∷ (codes "groups", length m.now.groups) ∷
        (codes "public names", length m.now.pubs) ∷ (codes "external names", length m.now.exts) ∷
        (codes "communal names", count_by is_communal m.now.exts) ∷ [])) }
{
    add_name(alloc, out, m)?;
    add_seq(alloc, out, "segments", &m.segs, m)?;
    add_seq(alloc, out, "groups", &m.groups, m)?;
    add_seq(alloc, out, "public names", &m.pubs, m)?;
    add_externals(alloc, out, m)?;
    add_communals(alloc, out, m)
}

// What comes after the names.
fn add_links(alloc: Global, out: &mut Vec<Part>, m: &ObjModule) -> Result<(), NoMemory>
    ensures { OnOk result (tallies out.new.items ≡ tallies out.old.items ++
        ((codes "COMDATs", length m.now.comdats) ∷ (codes "fixups by location", 8) ∷ (codes "imports", length m.now.imports) ∷
        (codes "exports", length m.now.exports) ∷ (codes "default libraries", length m.now.deflibs) ∷ (codes "start", how_many m.now.start) ∷ [])) }
{
    add_seq(alloc, out, "COMDATs", &m.comdats, m)?;
    add_fixups(alloc, out, m.fixes.as_slice())?;
    add_seq(alloc, out, "imports", &m.imports, m)?;
    add_seq(alloc, out, "exports", &m.exports, m)?;
    add_seq(alloc, out, "default libraries", &m.deflibs, m)?;
    add_start(alloc, out, m)
}

/// Adds all lists of an object module.
pub fn add_object(alloc: Global, out: &mut Vec<Part>, m: &ObjModule) -> Result<(), NoMemory>
    ensures { OnOk result (tallies out.new.items ≡ tallies out.old.items ++ object_lists m.now) }
{
    add_names(alloc, out, m)?;
    add_links(alloc, out, m)
}
