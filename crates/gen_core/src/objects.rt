//! The object module of a number.

ghost use Rattle.std.specs.Prelude.{◌≡◌, ◌≤◌, ◌<◌, ◌∷◌, [], true, IfOk};
ghost use Rattle.gen_model.specs.Modules as modules;

use crate::names::{module_name, public_name};
use crate::references::{pieces, references};
use gen_model::SEGMENT_LEN;
use lx_types::{EntryKey, Name, NoMemory, Seq};
use obj_types::{
    ALIGN_DOUBLEWORD, COMBINE_PUBLIC, Exp, Exports, Ext, Exts, Group, Groups, Imp, Imports,
    ObjModule, Pub, PubPlace, Pubs, Seg, Segs,
};
use std::alloc::Global;

// A list of one item.
fn one<T: Drop>(alloc: Global, item: T) -> Result<Seq<T>, NoMemory>
    ensures { IfOk result (λ items. items ≡ item ∷ []) }
{
    let mut items = Seq::new(alloc);
    items.push(item)?;
    Ok(items)
}

fn segments(alloc: Global) -> Result<Segs, NoMemory>
    ensures { IfOk result (λ segs. segs ≡ modules.code_segment ∷ []) }
{
    let segment = Seg {
        name: Name::of_short(alloc, b"CODE32".as_slice())?,
        class: Name::of_short(alloc, b"CODE".as_slice())?,
        align: ALIGN_DOUBLEWORD,
        combine: COMBINE_PUBLIC,
        wide: true,
        len: SEGMENT_LEN,
        debug: false,
    };
    one(alloc, segment)
}

fn groups(alloc: Global) -> Result<Groups, NoMemory>
    ensures { IfOk result (λ groups. groups ≡ modules.flat_group ∷ []) }
{
    let group = Group {
        name: Name::of_short(alloc, b"FLAT".as_slice())?,
        members: Seq::new(alloc),
    };
    one(alloc, group)
}

// The public name at the segment's front.
fn publics(alloc: Global, k: u32) -> Result<Pubs, NoMemory>
    ensures { IfOk result (λ pubs. pubs ≡ modules.own_public k ∷ []) }
{
    let public = Pub {
        name: public_name(alloc, k)?,
        local: false,
        place: PubPlace::In { seg: 1, offset: 0 },
    };
    one(alloc, public)
}

// The public name of the module before it.
fn externals(alloc: Global, k: u32) -> Result<Exts, NoMemory>
    ensures { IfOk result (λ exts. exts ≡ modules.externals_of k) }
{
    if k <= 1 {
        return Ok(Seq::new(alloc));
    }
    let external = Ext {
        name: public_name(alloc, k - 1)?,
        local: false,
        common: None,
    };
    one(alloc, external)
}

// It is the module's first ordinal.
fn imports(alloc: Global, k: u32) -> Result<Imports, NoMemory>
    ensures { IfOk result (λ imports. imports ≡ modules.imports_of k) }
{
    if k <= 1 {
        return Ok(Seq::new(alloc));
    }
    let import = Imp {
        name: public_name(alloc, k - 1)?,
        module: module_name(alloc, k - 1)?,
        entry: EntryKey::Ordinal(1),
    };
    one(alloc, import)
}

fn exports(alloc: Global, k: u32) -> Result<Exports, NoMemory>
    ensures { IfOk result (λ exports. exports ≡ modules.own_export k ∷ []) }
{
    let export = Exp {
        name: public_name(alloc, k)?,
        internal: public_name(alloc, k)?,
        ordinal: Some(1),
        resident: false,
        nodata: false,
        words: 0,
    };
    one(alloc, export)
}

/// The object module of module `k`: a code segment of 8,192 bytes, the group FLAT, its public name at the segment's front,
/// which it exports as its first ordinal, and a reference in each doubleword. Where `k` is more than 1, the first of them is to
/// the first ordinal of the module before it, which is imported.
#[tactic(auto, unfolding(gen_model::specs::Modules::gen_object))]
pub fn object_module(alloc: Global, k: u32) -> Result<ObjModule, NoMemory>
    ensures { IfOk result (λ m. m ≡ modules.gen_object k) }
{
    Ok(ObjModule {
        name: public_name(alloc, k)?,
        segs: segments(alloc)?,
        groups: groups(alloc)?,
        pubs: publics(alloc, k)?,
        exts: externals(alloc, k)?,
        pieces: pieces(alloc)?,
        fixes: references(alloc, k)?,
        imports: imports(alloc, k)?,
        exports: exports(alloc, k)?,
        deflibs: Seq::new(alloc),
        comdats: Seq::new(alloc),
        start: None,
    })
}
