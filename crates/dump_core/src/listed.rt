//! The lists of a module.

ghost use Rattle.std.specs.Prelude.{◌≡◌, ◌<◌, length, map, IfOk};
ghost use Rattle.std.specs.List.{range_with_len};
ghost use Rattle.lx_types.specs.Parts.{object_of};
ghost use Rattle.lx_types.specs.Sound.{IsNumberOf};
ghost use Rattle.lx_model.specs.Module.{IsRead};
ghost use Rattle.dump_model.specs.Listings.{listed_page, page_id, listed_object, listing_of};

use crate::fixups::fixes_between;
use dump_model::{ListedObject, ListedPage, Listing};
use lx_types::{EntryHead, Module, Name, Names, NoMemory, PageId, Seq};
use std::alloc::Global;

// A page of an object, which its entry counts.
fn listed_page(alloc: Global, m: &Module, id: PageId) -> Result<ListedPage, NoMemory>
    requires object { IsNumberOf id.object (length m.now.objects) }
    requires page { id.page < (object_of m.now id.object).count }
    ensures { IfOk result (λ page. page ≡ listed_page m.now id) }
{
    let head = m.counted_page(id);
    let (from, to) = m.counted_span(id);
    let fixes = fixes_between(alloc, m, from, to)?;
    Ok(ListedPage {
        kind: head.kind,
        at: head.at,
        len: head.len,
        fixes,
    })
}

// An object by its number, from 1, with its pages.
fn listed_object(alloc: Global, m: &Module, number: u32) -> Result<ListedObject, NoMemory>
    requires { IsNumberOf number (length m.now.objects) }
    ensures { IfOk result (λ object. object ≡ listed_object m.now number) }
{
    let object = m.objects()[number as usize - 1];
    let mut pages = Vec::new(alloc);
    for page in 0..object.count {
        let id = PageId {
            object: number,
            page,
        };
        pages.push(listed_page(alloc, m, id)?)?;
    }
    Ok(ListedObject {
        size: object.size,
        base: object.base,
        flags: object.flags,
        pages: Seq::from_vec(pages),
    })
}

fn listed_objects(alloc: Global, m: &Module) -> Result<Seq<ListedObject>, NoMemory>
    requires { IsRead m.now }
    ensures { IfOk result (λ objects. objects ≡ map (listed_object m.now) (range_with_len 1 (length m.now.objects))) }
{
    let mut objects = Vec::new(alloc);
    let mut number = 0;
    for _ in m.objects() {
        number += 1;
        objects.push(listed_object(alloc, m, number)?)?;
    }
    Ok(Seq::from_vec(objects))
}

fn copied_names(alloc: Global, names: &[Name]) -> Result<Names, NoMemory>
    ensures { IfOk result (λ copies. copies ≡ names.now) }
{
    let mut copies = Vec::new(alloc);
    for name in names {
        copies.push(name.copied(alloc)?)?;
    }
    Ok(Seq::from_vec(copies))
}

fn copied_entries(
    alloc: Global,
    entries: &[(u32, EntryHead)],
) -> Result<Seq<(u32, EntryHead)>, NoMemory>
    ensures { IfOk result (λ copies. copies ≡ entries.now) }
{
    Ok(Seq::from_vec(Vec::from_slice(alloc, entries)?))
}

fn copied_ordinals(alloc: Global, names: &[(Name, u32)]) -> Result<Seq<(Name, u32)>, NoMemory>
    ensures { IfOk result (λ copies. copies ≡ names.now) }
{
    let mut copies = Vec::new(alloc);
    for named in names {
        copies.push((named.0.copied(alloc)?, named.1))?;
    }
    Ok(Seq::from_vec(copies))
}

/// The lists of a module that was read: its objects with all pages that they count, also those past an object's size, and
/// after each page the sources of its fixup records in their order; its import modules, its entries and its names.
///
/// It takes time linear in the lists.
#[tactic(auto, unfolding(dump_model::specs::Listings::listing_of))]
pub fn listing(alloc: Global, m: &Module) -> Result<Listing, NoMemory>
    requires { IsRead m.now }
    ensures { IfOk result (λ l. l ≡ listing_of m.now) }
{
    Ok(Listing {
        name: m.name().copied(alloc)?,
        library: m.is_library(),
        flags: m.flags(),
        start: m.start(),
        objects: listed_objects(alloc, m)?,
        imports: copied_names(alloc, m.imports())?,
        entries: copied_entries(alloc, m.entries())?,
        names: copied_ordinals(alloc, m.names())?,
    })
}
