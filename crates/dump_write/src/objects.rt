//! The lines of objects, with those of their pages.

ghost use Rattle.std.specs.Prelude.{◌≡◌, ◌++◌, OnOk};
ghost use Rattle.std.specs.List.{flat_map, enumerate_from};
ghost use Rattle.dump_model.specs.Lines.{object_line, page_line, data_words, fix_line};
ghost use Rattle.dump_model.specs.Dumps.{page_lines, object_lines};
ghost use Rattle.session_model.specs.Text.{line_of};

use crate::fixups::{PageNumber, push_fix};
use dump_model::{ListedObject, ListedPage};
use line_words::{Word, push_leading, push_line};
use lx_types::{Fix, PageKind};
use std::alloc::AllocError;

fn push_data(out: &mut Vec<u8>, kind: PageKind, at: u32, len: u32) -> Result<(), AllocError>
    ensures { OnOk result (out.new.items ≡ out.old.items ++ line_of (data_words kind at len)) }
{
    let at = Word::Number(at);
    let len = Word::Number(len);
    match kind {
        PageKind::Plain => push_line(out, &[Word::Text(b"plain"), at, len]),
        PageKind::Iterated => push_line(out, &[Word::Text(b"iterated"), at, len]),
        PageKind::Invalid => push_line(out, &[Word::Text(b"invalid")]),
        PageKind::Zero => push_line(out, &[Word::Text(b"zero")]),
    }
}

fn push_fixes(out: &mut Vec<u8>, id: PageNumber, fixes: &[Fix]) -> Result<(), AllocError>
    ensures { OnOk result (out.new.items ≡ out.old.items ++ flat_map (fix_line id.object id.page) fixes.now) }
{
    for fix in fixes {
        push_fix(out, id, fix)?;
    }
    Ok(())
}

fn push_page(out: &mut Vec<u8>, id: PageNumber, page: &ListedPage) -> Result<(), AllocError>
    ensures { OnOk result (out.new.items ≡ out.old.items ++ page_lines id.object (id.page, page.now)) }
{
    let object = Word::Count(id.object);
    let place = Word::Count(id.page);
    push_leading(out, &[Word::Text(b"page"), object, place])?;
    push_data(out, page.kind, page.at, page.len)?;
    push_fixes(out, id, page.fixes.as_slice())
}

fn push_pages(out: &mut Vec<u8>, object: u64, pages: &[ListedPage]) -> Result<(), AllocError>
    ensures { OnOk result (out.new.items ≡ out.old.items ++ flat_map (page_lines object) (enumerate_from 0 pages.now)) }
{
    let mut number = 0u64;
    for page in pages {
        let id = PageNumber {
            object,
            page: number,
        };
        push_page(out, id, page)?;
        number += 1;
    }
    Ok(())
}

fn push_object(out: &mut Vec<u8>, number: u64, object: &ListedObject) -> Result<(), AllocError>
    ensures { OnOk result (out.new.items ≡ out.old.items ++ object_lines (number, object.now)) }
{
    let pages = object.pages.as_slice();
    push_leading(out, &[Word::Text(b"object"), Word::Count(number)])?;
    push_leading(out, &[Word::Text(b"size"), Word::Number(object.size)])?;
    push_leading(out, &[Word::Text(b"base"), Word::Hex(object.base)])?;
    push_leading(out, &[Word::Text(b"flags"), Word::Hex(object.flags)])?;
    push_line(
        out,
        &[Word::Text(b"pages"), Word::Count(pages.len() as u64)],
    )?;
    push_pages(out, number, pages)
}

/// The lines of all objects.
pub(crate) fn push_objects(out: &mut Vec<u8>, objects: &[ListedObject]) -> Result<(), AllocError>
    ensures { OnOk result (out.new.items ≡ out.old.items ++ flat_map object_lines (enumerate_from 1 objects.now)) }
{
    let mut number = 0u64;
    for object in objects {
        number += 1;
        push_object(out, number, object)?;
    }
    Ok(())
}
