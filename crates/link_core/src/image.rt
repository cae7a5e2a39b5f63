//! The image of a link: what its file says, before any byte of it.

ghost use Rattle.std.specs.Prelude.{◌≡◌, ◌+◌, IfOk, List, map, unwrap_or};
ghost use Rattle.lx_types.specs.declared.parts.TheConstants as flags;
ghost use Rattle.obj_types.specs.declared.symbol.Imp.{Imp};
ghost use Rattle.link_model.specs.Flags.{flag};
ghost use Rattle.link_model.specs.Header.{auto_data};
ghost use Rattle.link_model.specs.ImportTables.{modules_in, procs_in};
ghost use Rattle.link_model.specs.Link.{link_of, exports};
ghost use Rattle.link_types.specs.Places.{ArePlaces};
ghost use Rattle.link_core.specs.Parts.{AreTables, HasParts};

use crate::asked::{Asked, asked_of};
use crate::entries::entries_of;
use crate::ranges::fix_ranges;
use crate::tables::link_tables;
use link_place::Placed;
use link_types::{Layout, Symbols};
use lx_exports::OutEntry;
use lx_types::{MODULE_INIT_EACH, MODULE_TERM_EACH, Name, Names, NoMemory, Seq};
use lx_write::Image;
use obj_types::{DefFile, LinkInput};
use std::alloc::Global;

/// What a module imports and exports, and its automatic data object.
#[derive(Drop)]
pub struct LinkTables {
    /// The import modules, in upper case.
    pub imports: Names,
    /// The names of import procedures.
    pub procs: Names,
    /// The exports.
    pub exports: Seq<OutEntry>,
    /// The automatic data object, or 0.
    pub auto: u32,
}

/// What stands in a link's pages, and its tables.
#[derive(Drop)]
pub struct LinkParts {
    pub placed: Placed,
    pub tables: LinkTables,
}

/// The image of a link, and its layout.
#[derive(Drop)]
pub struct PlacedImage {
    pub layout: Layout,
    pub image: Image,
}

// The tables of a link that asks for this.
fn tables_for(
    alloc: Global,
    asked: &Asked<'_>,
    syms: &Symbols,
    layout: &Layout,
    placed: &Placed,
) -> Result<LinkTables, NoMemory>
    ensures tables { IfOk result (λ tables. (pairs : List Imp) → placed.now.imports ≡ modules_in pairs → placed.now.procs ≡ procs_in pairs
        → AreTables layout.now.places syms.now layout.now.objects (map (λ x. x.now) asked.now.exports.items) pairs tables) }
    ensures auto { IfOk result (λ tables. tables.auto ≡ asked.now.auto) }
{
    let exports = asked.exports.as_slice();
    let tables = link_tables(alloc, &layout.places, syms, placed, exports)?;
    let entries = entries_of(alloc, layout, syms, &tables, exports)?;
    let (imports, procs) = tables.into_names();
    Ok(LinkTables {
        imports,
        procs,
        exports: Seq::from_vec(entries),
        auto: asked.auto,
    })
}

/// What a link imports and exports whose fixups are placed, and its automatic data object.
pub fn tables_of(
    alloc: Global,
    input: &LinkInput,
    syms: &Symbols,
    layout: &Layout,
    placed: &Placed,
) -> Result<LinkTables, NoMemory>
    ensures tables { IfOk result (λ tables. (pairs : List Imp) → placed.now.imports ≡ modules_in pairs → placed.now.procs ≡ procs_in pairs
        → AreTables layout.now.places syms.now layout.now.objects (exports (link_of input.now syms.now.chosen)) pairs tables) }
    ensures auto { IfOk result (λ tables. ArePlaces (link_of input.now syms.now.chosen) layout.now.places
        → tables.auto ≡ auto_data (link_of input.now syms.now.chosen)) }
{
    let asked = asked_of(alloc, input, syms, &layout.places)?;
    tables_for(alloc, &asked, syms, layout, placed)
}

// The module's name: that of NAME or LIBRARY, else the stem.
fn name_of(alloc: Global, input: &LinkInput) -> Result<Name, NoMemory>
    ensures { IfOk result (λ name. name ≡ unwrap_or input.now.def.name input.now.stem) }
{
    match &input.def.name {
        None => input.stem.copied(alloc),
        Some(name) => name.copied(alloc),
    }
}

// The module flags beside a library's own: initialisation and termination for each process.
fn module_flags(def: &DefFile) -> u32
    ensures { result ≡ flag def.now.init_each flags.MODULE_INIT_EACH + flag def.now.term_each flags.MODULE_TERM_EACH }
{
    let init = if def.init_each { MODULE_INIT_EACH } else { 0 };
    let term = if def.term_each { MODULE_TERM_EACH } else { 0 };
    init + term
}

// What a module is called, and its description.
#[derive(Drop)]
struct Title {
    name: Name,
    about: Name,
}

fn title_of(alloc: Global, input: &LinkInput) -> Result<Title, NoMemory>
    ensures name { IfOk result (λ title. title.name ≡ unwrap_or input.now.def.name input.now.stem) }
    ensures about { IfOk result (λ title. title.about ≡ input.now.def.about) }
{
    let name = name_of(alloc, input)?;
    let about = input.def.about.copied(alloc)?;
    Ok(Title { name, about })
}

/// The image of a link with this layout and these parts.
pub fn image_of(
    alloc: Global,
    input: &LinkInput,
    layout: Layout,
    parts: LinkParts,
) -> Result<PlacedImage, NoMemory>
    ensures image { IfOk result (λ made. HasParts input.now layout.objects parts made.image) }
    ensures layout { IfOk result (λ made. made.layout ≡ layout) }
{
    let title = title_of(alloc, input)?;
    let objects = Seq::from_vec(Vec::from_slice(alloc, layout.objects())?);
    let LinkParts { placed, tables } = parts;
    fix_ranges(placed.fixes.as_slice());
    let image = Image {
        kind: input.def.kind,
        name: title.name,
        about: title.about,
        flags: module_flags(&input.def),
        start: placed.start,
        stack: placed.stack,
        heap: input.def.heap,
        auto: tables.auto,
        objects,
        bytes: placed.bytes,
        fixes: placed.fixes,
        imports: tables.imports,
        procs: tables.procs,
        exports: tables.exports,
    };
    Ok(PlacedImage { layout, image })
}
