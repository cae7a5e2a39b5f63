//! Which pages are fixed once for all processes.

ghost use Rattle.std.specs.Prelude.{◌≡◌};
ghost use Rattle.lx_model.specs.ModuleBytes.{is_invalid};
ghost use Rattle.page_fix.specs.Fixable.{has_shared_pages, is_fixable, is_page_of};

use lx_types::{Class, Module, PageId, PageKind};

// Whether the module has the page.
fn has_page(m: &Module, p: PageId) -> bool
    ensures { result ≡ is_page_of m.now p }
{
    p.object != 0 && p.object as usize <= m.objects().len() && p.page < m.pages(p.object)
}

// Whether all processes have one copy of an object's pages.
fn has_shared_pages(class: Class) -> bool
    ensures { result ≡ has_shared_pages class }
{
    match class {
        Class::Code | Class::Shared => true,
        Class::Private => false,
    }
}

// Whether the page cannot be reached.
fn is_invalid(kind: PageKind) -> bool
    ensures { result ≡ is_invalid kind }
{
    matches!(kind, PageKind::Invalid)
}

/// Whether a page is fixed once for all processes: it is a page of a Code or Shared object of the module, and it is not
/// invalid. ("32-bit Linear eXecutable Module Format": "Object Table", "Object Page Table".)
#[tactic(auto, using(crate::proofs::Fixables::outside, crate::proofs::Fixables::page_so, crate::proofs::Fixables::fixable_by_parts))]
pub fn is_fixable(m: &Module, p: PageId) -> bool
    ensures { result ≡ is_fixable m.now p }
{
    if !has_page(m, p) {
        return false;
    }
    let object = m.objects()[p.object as usize - 1];
    let shared = has_shared_pages(object.class());
    let invalid = is_invalid(m.page(p).kind);
    shared && !invalid
}
