//! Items of object modules and definition files once more.

ghost use Rattle.std.specs.Prelude.{◌≡◌, ◌||◌, IfOk};

use lx_types::{Bytes, Name, Names, NoMemory, Seq};
use obj_types::{DefFile, Exp, Exports, Ext, Exts, Imports, Piece, Pub, Seg, SegAttrs, SegRules};
use std::alloc::Global;
use sym_table::copied_import;

pub fn copied_names(alloc: Global, names: &Names) -> Result<Names, NoMemory>
    ensures { IfOk result (λ copy. copy ≡ names.now) }
{
    let mut copies = Seq::new(alloc);
    for name in names.as_slice() {
        copies.push(name.copied(alloc)?)?;
    }
    Ok(copies)
}

fn copied_name(alloc: Global, name: &Option<Name>) -> Result<Option<Name>, NoMemory>
    ensures { IfOk result (λ copy. copy ≡ name.now) }
{
    match name {
        Some(name) => Ok(Some(name.copied(alloc)?)),
        None => Ok(None),
    }
}

/// A segment, which may become one of debug data.
pub fn copied_seg(alloc: Global, seg: &Seg, taken: bool) -> Result<Seg, NoMemory>
    ensures { IfOk result (λ copy. copy ≡ record seg.now { debug = seg.now.debug || taken }) }
{
    Ok(Seg {
        name: seg.name.copied(alloc)?,
        class: seg.class.copied(alloc)?,
        align: seg.align,
        combine: seg.combine,
        wide: seg.wide,
        len: seg.len,
        debug: seg.debug || taken,
    })
}

pub fn copied_pub(alloc: Global, public: &Pub) -> Result<Pub, NoMemory>
    ensures { IfOk result (λ copy. copy ≡ public.now) }
{
    Ok(Pub {
        name: public.name.copied(alloc)?,
        local: public.local,
        place: public.place,
    })
}

pub fn copied_piece(alloc: Global, piece: &Piece) -> Result<Piece, NoMemory>
    ensures { IfOk result (λ copy. copy ≡ piece.now) }
{
    Ok(Piece {
        seg: piece.seg,
        offset: piece.offset,
        bytes: Bytes::from_vec(Vec::from_slice(alloc, piece.bytes.as_slice())?),
    })
}

pub fn copied_exts(alloc: Global, exts: &Exts) -> Result<Exts, NoMemory>
    ensures { IfOk result (λ copy. copy ≡ exts.now) }
{
    let mut copies = Seq::new(alloc);
    for ext in exts.as_slice() {
        copies.push(Ext {
            name: ext.name.copied(alloc)?,
            local: ext.local,
            common: ext.common,
        })?;
    }
    Ok(copies)
}

pub fn copied_imports(alloc: Global, imports: &Imports) -> Result<Imports, NoMemory>
    ensures { IfOk result (λ copy. copy ≡ imports.now) }
{
    let mut copies = Seq::new(alloc);
    for import in imports.as_slice() {
        copies.push(copied_import(alloc, import)?)?;
    }
    Ok(copies)
}

pub fn copied_exports(alloc: Global, exports: &Exports) -> Result<Exports, NoMemory>
    ensures { IfOk result (λ copy. copy ≡ exports.now) }
{
    let mut copies = Seq::new(alloc);
    for export in exports.as_slice() {
        copies.push(Exp {
            name: export.name.copied(alloc)?,
            internal: export.internal.copied(alloc)?,
            ordinal: export.ordinal,
            resident: export.resident,
            nodata: export.nodata,
            words: export.words,
        })?;
    }
    Ok(copies)
}

fn copied_rules(alloc: Global, rules: &SegRules) -> Result<SegRules, NoMemory>
    ensures { IfOk result (λ copy. copy ≡ rules.now) }
{
    let mut copies = Seq::new(alloc);
    for rule in rules.as_slice() {
        copies.push(SegAttrs {
            name: rule.name.copied(alloc)?,
            class: copied_name(alloc, &rule.class)?,
            attrs: rule.attrs,
        })?;
    }
    Ok(copies)
}

/// A definition file.
pub fn copied_def(alloc: Global, def: &DefFile) -> Result<DefFile, NoMemory>
    ensures { IfOk result (λ copy. copy ≡ def.now) }
{
    Ok(DefFile {
        kind: def.kind,
        name: copied_name(alloc, &def.name)?,
        init_each: def.init_each,
        term_each: def.term_each,
        about: def.about.copied(alloc)?,
        stack: def.stack,
        heap: def.heap,
        base: def.base,
        code: def.code,
        plain: def.plain,
        segs: copied_rules(alloc, &def.segs)?,
        exports: copied_exports(alloc, &def.exports)?,
        imports: copied_imports(alloc, &def.imports)?,
    })
}
