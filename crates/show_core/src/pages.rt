//! The pages and the fixups of a module by their kinds ("Object Page Table", "Fixup Record Table").

ghost use Rattle.std.specs.Prelude.{◌≡◌, ◌++◌, ◌∷◌, [], codes, OnOk};
ghost use Rattle.lx_model.specs.Module.{IsRead};
ghost use Rattle.show_model.specs.Outlines.{tallies};

use crate::counts::{Counts, bump};
use crate::outline::add_list;
use dump_core::listing;
use dump_model::{ListedObject, ListedPage};
use lx_types::{Fix, FixTarget, Module, NoMemory};
use show_model::Part;
use std::alloc::Global;

/// By the kinds of pages.
const PAGE_KINDS: [&str; 4] = ["plain", "iterated", "invalid", "zero"];

/// By the sources.
const SOURCES: [&str; 7] = [
    "byte",
    "selector",
    "16:16 pointer",
    "16-bit offset",
    "16:32 pointer",
    "32-bit offset",
    "32-bit self-relative offset",
];

const TARGETS: [&str; 4] = [
    "internal",
    "import by ordinal",
    "import by name",
    "own entry point",
];

/// How often each kind of page, of source and of target comes.
#[derive(Drop)]
struct Kinds {
    pages: Counts,
    sources: Counts,
    targets: Counts,
}

// Where a kind of target stands in the table.
fn target_place(target: FixTarget) -> usize {
    match target {
        FixTarget::Internal { .. } => 0,
        FixTarget::Ordinal { .. } => 1,
        FixTarget::Named { .. } => 2,
        FixTarget::Own { .. } => 3,
    }
}

fn count_fixes(kinds: &mut Kinds, fixes: &[Fix]) {
    for fix in fixes {
        bump(&mut kinds.sources, fix.source as usize);
        bump(&mut kinds.targets, target_place(fix.target));
    }
}

fn count_pages(kinds: &mut Kinds, pages: &[ListedPage]) {
    for page in pages {
        bump(&mut kinds.pages, page.kind as usize);
        count_fixes(kinds, page.fixes.as_slice());
    }
}

fn count_objects(kinds: &mut Kinds, objects: &[ListedObject]) {
    for object in objects {
        count_pages(kinds, object.pages.as_slice());
    }
}

/// Adds the pages by kind, the fixups by the kind of their sources, and the same by the kind of their targets. It goes over all
/// pages and fixups once.
pub fn add_pages(alloc: Global, out: &mut Vec<Part>, m: &Module) -> Result<(), NoMemory>
    requires { IsRead m.now }
    ensures { OnOk result (tallies out.new.items ≡ tallies out.old.items ++
        ((codes "pages by kind", 4) ∷ (codes "fixups by kind", 7) ∷ (codes "fixups by target", 4) ∷ [])) }
{
    let mut kinds = Kinds {
        pages: vec![in alloc; 0; PAGE_KINDS.len()]?,
        sources: vec![in alloc; 0; SOURCES.len()]?,
        targets: vec![in alloc; 0; TARGETS.len()]?,
    };
    count_objects(&mut kinds, listing(alloc, m)?.objects.as_slice());
    add_list(alloc, out, "pages by kind", &PAGE_KINDS, &kinds.pages)?;
    add_list(alloc, out, "fixups by kind", &SOURCES, &kinds.sources)?;
    add_list(alloc, out, "fixups by target", &TARGETS, &kinds.targets)
}
