//! An object file that is written, with an item of each kind.

ghost use Rattle.std.specs.Prelude.{◌≡◌, ◌∷◌, [], IfOk, codes};
ghost use Rattle.omf_write.specs.Writable.{IsWritable};
ghost use Rattle.small_crates_tests.specs.Sample.{sample_segs, sample_groups, sample_exts, sample_pubs, sample_imports, sample_exports, sample_pieces, sample_fixes, sample_start, sample_module};

use lx_types::{Bytes, EntryKey, Name, NoMemory, Seq};
use obj_types::{
    Exp, Exports, Ext, Exts, FixAt, Fixes, Frame, Goal, Group, Groups, Imp, Imports, ObjModule,
    Piece, Pieces, Pub, PubPlace, Pubs, Seg, Segs, StartAt,
};
use omf_write::object;
use std::alloc::Global;

fn segs(alloc: Global) -> Result<Segs, NoMemory>
    ensures { IfOk result (λ segs. segs ≡ sample_segs) }
{
    let mut segs = Seq::new(alloc);
    segs.push(Seg {
        name: Name::of_short(alloc, b"CODE32".as_slice())?,
        class: Name::of_short(alloc, b"CODE".as_slice())?,
        align: 5,
        combine: 2,
        wide: true,
        len: 8,
        debug: false,
    })?;
    Ok(segs)
}

fn groups(alloc: Global) -> Result<Groups, NoMemory>
    ensures { IfOk result (λ groups. groups ≡ sample_groups) }
{
    let mut groups = Seq::new(alloc);
    groups.push(Group {
        name: Name::of_short(alloc, b"FLAT".as_slice())?,
        members: Seq::new(alloc),
    })?;
    Ok(groups)
}

fn exts(alloc: Global) -> Result<Exts, NoMemory>
    ensures { IfOk result (λ exts. exts ≡ sample_exts) }
{
    let mut exts = Seq::new(alloc);
    exts.push(Ext {
        name: Name::of_short(alloc, b"g".as_slice())?,
        local: false,
        common: None,
    })?;
    Ok(exts)
}

fn pubs(alloc: Global) -> Result<Pubs, NoMemory>
    ensures { IfOk result (λ pubs. pubs ≡ sample_pubs) }
{
    let mut pubs = Seq::new(alloc);
    pubs.push(Pub {
        name: Name::of_short(alloc, b"a".as_slice())?,
        local: false,
        place: PubPlace::In { seg: 1, offset: 4 },
    })?;
    Ok(pubs)
}

fn imports(alloc: Global) -> Result<Imports, NoMemory>
    ensures { IfOk result (λ imports. imports ≡ sample_imports) }
{
    let mut imports = Seq::new(alloc);
    imports.push(Imp {
        name: Name::of_short(alloc, b"f".as_slice())?,
        module: Name::of_short(alloc, b"Mod".as_slice())?,
        entry: EntryKey::Ordinal(7),
    })?;
    Ok(imports)
}

fn exports(alloc: Global) -> Result<Exports, NoMemory>
    ensures { IfOk result (λ exports. exports ≡ sample_exports) }
{
    let mut exports = Seq::new(alloc);
    exports.push(Exp {
        name: Name::of_short(alloc, b"a".as_slice())?,
        internal: Name::of_short(alloc, b"b".as_slice())?,
        ordinal: Some(1),
        resident: true,
        nodata: false,
        words: 2,
    })?;
    Ok(exports)
}

fn pieces(alloc: Global) -> Result<Pieces, NoMemory>
    ensures { IfOk result (λ pieces. pieces ≡ sample_pieces) }
{
    let mut pieces = Seq::new(alloc);
    let bytes = Vec::from_slice(alloc, &[1, 2, 3, 4, 5, 6, 7, 8])?;
    pieces.push(Piece {
        seg: 1,
        offset: 0,
        bytes: Bytes::from_vec(bytes),
    })?;
    Ok(pieces)
}

fn fixes(alloc: Global) -> Result<Fixes, NoMemory>
    ensures { IfOk result (λ fixes. fixes ≡ sample_fixes) }
{
    let mut fixes = Seq::new(alloc);
    fixes.push(FixAt {
        seg: 1,
        offset: 0,
        loc: 9,
        selfrel: true,
        frame: Frame::Here,
        goal: Goal::Ext(1),
        disp: 0,
    })?;
    fixes.push(FixAt {
        seg: 1,
        offset: 4,
        loc: 9,
        selfrel: false,
        frame: Frame::Group(1),
        goal: Goal::Seg(1),
        disp: 70_000,
    })?;
    Ok(fixes)
}

fn sample(alloc: Global) -> Result<ObjModule, NoMemory>
    ensures { IfOk result (λ m. m ≡ sample_module) }
{
    let mut deflibs = Seq::new(alloc);
    deflibs.push(Name::of_short(alloc, b"L".as_slice())?)?;
    Ok(ObjModule {
        name: Name::of_short(alloc, b"A".as_slice())?,
        segs: segs(alloc)?,
        groups: groups(alloc)?,
        pubs: pubs(alloc)?,
        exts: exts(alloc)?,
        pieces: pieces(alloc)?,
        fixes: fixes(alloc)?,
        imports: imports(alloc)?,
        exports: exports(alloc)?,
        deflibs,
        comdats: Seq::new(alloc),
        start: Some(StartAt {
            frame: Frame::OfTarget,
            goal: Goal::Seg(1),
            disp: 4,
        }),
    })
}

#[test]
fn an_object_file(rt: HostRuntime) -> Result<(), NoMemory> {
    let m = sample(rt.alloc())?;
    assert!(rt; object(rt.alloc(), &m).is_ok());
    Ok(())
}
