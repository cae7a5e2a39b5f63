//! Which pages are fixed once for all processes.

ghost use Rattle.std.specs.Prelude.{◌≡◌, true};
ghost use Rattle.std.specs.List.{list_any};
ghost use Rattle.lx_types.specs.declared.object.PageId.{PageId};
ghost use Rattle.lx_types.specs.declared.parts.Parts.{Parts};
ghost use Rattle.page_fix.specs.Fixable.{is_page, is_fixable, IsFixable, fixable_pages};

/// A law: the pages that rights are made for are those that the test finds, and what the test says, part by part.
pub fn fixable_pages_are_found()
    ensures listed { (m : Parts) (p : PageId) → list_any (is_page p) (fixable_pages m) ≡ is_fixable m p }
    ensures so { (m : Parts) (p : PageId) → is_fixable m p ≡ true → IsFixable m p }
    ensures only { (m : Parts) (p : PageId) → IsFixable m p → is_fixable m p ≡ true }
{}
