//! What the objects of a module hold, page by page.

ghost use Rattle.std.specs.Prelude.{◌≡◌, ◌<◌, ◌≤◌, IfOk, length};
ghost use Rattle.load_model.specs.Memory.{page};
ghost use Rattle.lx_model.specs.ModuleBytes as bytes;
ghost use Rattle.lx_types.specs.Object.{pages_of};
ghost use Rattle.lx_types.specs.Parts.{object_of, page_at};
ghost use Rattle.lx_types.specs.Sound.{IsNumberOf};
ghost use Rattle.memory_model.specs.Memory as memory;
ghost use Rattle.memory_core.specs.Objects as objects;
ghost use Rattle.memory_core.specs.Objects.{IsStanding};

use lx_types::{
    Module, NoMemory, ObjHead, PAGE_LEN, PAGE_SIZE, PageId, PageKind, Seq, count, object_base,
};
use memory_model::{ObjectMemory, PageMemory};
use module_pages::ModulePages;
use page_fix::Steps;
use std::alloc::Global;
use std::sync::ledger::Ledger;

/// A module where it stands: its parts, its pages at the bases of the load, and the bases of its own objects.
#[derive(Drop)]
pub struct Standing<'a> {
    pub module: &'a Module,
    pub pages: ModulePages<'a>,
    pub bases: &'a [u32],
}

// Whether a page cannot be reached.
fn is_invalid(module: &Module, p: PageId) -> bool
    requires object { IsNumberOf p.object (length «module».now.objects) }
    requires page { p.page < pages_of (object_of «module».now p.object) }
    ensures { result ≡ bytes.is_invalid (page_at «module».now p).kind }
{
    matches!(module.page(p).kind, PageKind::Invalid)
}

fn head_of(module: &Module, object: u32) -> ObjHead
    requires { IsNumberOf object (length «module».now.objects) }
    ensures { result ≡ object_of «module».now object }
{
    module.objects()[object as usize - 1]
}

// How many bytes of a page lie in its object.
fn bytes_in(object: ObjHead, page: u32) -> u32
    requires { page < pages_of object }
    ensures { result ≡ memory.bytes_in object page }
{
    PAGE_SIZE.min(object.size - page * PAGE_SIZE)
}

// What a page holds.
fn page_held<L: Ledger>(
    alloc: Global,
    at: &Standing<'_>,
    p: PageId,
    steps: &mut Steps<L>,
) -> Result<PageMemory, NoMemory>
    requires standing { IsStanding at.now }
    requires object { IsNumberOf p.object (length at.now.«module».now.objects) }
    requires page { p.page < pages_of (object_of at.now.«module».now p.object) }
    ensures { IfOk result (λ held. held ≡ objects.page_held at.now.pages p) }
{
    if is_invalid(at.module, p) {
        return Ok(PageMemory::Invalid);
    }
    let len = bytes_in(head_of(at.module, p.object), p.page);
    let buffer = Box::new(alloc, [0; PAGE_LEN])?;
    let page = at.pages.page(p, buffer, steps);
    let bytes = page[..len as usize].to_vec(alloc)?;
    Ok(PageMemory::Held(Seq::from_vec(bytes)))
}

// What the first pages of an object hold.
fn pages_held<L: Ledger>(
    alloc: Global,
    at: &Standing<'_>,
    object: u32,
    pages: u32,
    steps: &mut Steps<L>,
) -> Result<Seq<PageMemory>, NoMemory>
    requires standing { IsStanding at.now }
    requires object { IsNumberOf object (length at.now.«module».now.objects) }
    requires few { pages ≤ pages_of (object_of at.now.«module».now object) }
    ensures { IfOk result (λ held. held ≡ objects.pages_held at.now.pages object pages) }
{
    let mut held = Seq::new(alloc);
    for page in 0..pages {
        held.push(page_held(alloc, at, PageId { object, page }, steps)?)?;
    }
    Ok(held)
}

// What an object holds.
fn object_held<L: Ledger>(
    alloc: Global,
    at: &Standing<'_>,
    number: u32,
    steps: &mut Steps<L>,
) -> Result<ObjectMemory, NoMemory>
    requires standing { IsStanding at.now }
    requires number { IsNumberOf number (length at.now.«module».now.objects) }
    ensures { IfOk result (λ held. held ≡ objects.object_held at.now.pages at.now.bases.now number) }
{
    let head = head_of(at.module, number);
    let pages = pages_held(alloc, at, number, at.module.pages(number), steps)?;
    Ok(ObjectMemory {
        number,
        base: object_base(at.bases, number),
        size: head.size,
        flags: head.flags,
        pages,
    })
}

/// What the objects of a module hold, in their order ("32-bit Linear eXecutable Module Format": "Object Table", "Object Page
/// Table", "Fixup Record Table").
pub fn objects_held<L: Ledger>(
    alloc: Global,
    at: &Standing<'_>,
    steps: &mut Steps<L>,
) -> Result<Seq<ObjectMemory>, NoMemory>
    requires { IsStanding at.now }
    ensures { IfOk result (λ held. held ≡ objects.objects_held at.now.pages at.now.bases.now) }
{
    let mut held = Seq::new(alloc);
    for before in 0..count(at.module.objects().len())? {
        held.push(object_held(alloc, at, before + 1, steps)?)?;
    }
    Ok(held)
}
