//! What a link puts into the pages of its module, from its layout.

ghost use Rattle.std.specs.Prelude.{◌≡◌, All, Some, None, map};
ghost use Rattle.lx_types.specs.Answers.{Answers};
ghost use Rattle.obj_types.specs.Input.{WholeInput};
ghost use Rattle.link_model.specs.Link.{Link, link_of};
ghost use Rattle.link_model.specs.Layout.{stack_top};
ghost use Rattle.link_model.specs.Refusal.{place_refusal};
ghost use Rattle.link_place.specs.Placing.{HasLocations, AreLaid, ArePlaced, fixup_refusal};
ghost use Rattle.link_fix.specs.Placed.{ArePages};
ghost use Rattle.link_types.specs.Binding.{IsBound};
ghost use Rattle.link_types.specs.Layout.{IsLaidOut};

use crate::fixups::fixups_of;
use crate::pieces::pieces_of;
use crate::start::start_of;
use link_fix::{Pages, place_pages};
use link_model::{FixRefusal, LaidObject, modules_at};
use link_types::{Layout, Places, Symbols};
use lx_types::{Bytes, Fail, Fix, Names, Seq};
use obj_types::{LinkInput, ObjModule};
use std::alloc::Global;

/// What a link puts into the pages of its module, and what it leaves to the loader.
#[derive(Drop)]
pub struct Placed {
    /// The bytes of each object before the loader.
    pub bytes: Seq<Bytes>,
    /// The fixups that are left to the loader, by object and page of 4,096 bytes.
    pub fixes: Seq<Seq<Seq<Fix>>>,
    /// The modules that fixups name, in upper case.
    pub imports: Names,
    /// The names of procedures that fixups name.
    pub procs: Names,
    /// The object and the offset at which the module starts.
    pub start: Option<(u32, u32)>,
    /// The object and the offset of the stack's end.
    pub stack: Option<(u32, u32)>,
}

// The parts of what is placed.
fn with_start(pages: Pages, start: Option<(u32, u32)>, stack: Option<(u32, u32)>) -> Placed
    ensures { result ≡ record { bytes = pages.bytes; fixes = pages.fixes; imports = pages.imports; procs = pages.procs; start = start; stack = stack } }
{
    let Pages {
        bytes,
        fixes,
        imports,
        procs,
    } = pages;
    Placed {
        bytes,
        fixes,
        imports,
        procs,
        start,
        stack,
    }
}

// The pages of a link, or the first refusal of its fixups.
fn pages_of(
    alloc: Global,
    modules: &[&ObjModule],
    syms: &Symbols,
    places: &Places,
    objects: &[LaidObject],
) -> Result<Pages, Fail<FixRefusal>>
    requires { All HasLocations (map (λ m. m.now) modules.now) }
    ensures { Answers result
        (λ pages. (l : Link) → AreLaid l (map (λ m. m.now) modules.now) syms.now places.now objects.now → (fixup_refusal l ≡ None) × ArePages l pages)
        (λ refusal. (l : Link) → AreLaid l (map (λ m. m.now) modules.now) syms.now places.now objects.now → fixup_refusal l ≡ Some refusal) }
{
    match fixups_of(alloc, places, syms, modules) {
        Err(fail) => Err(fail),
        Ok(fixups) => {
            let pieces = pieces_of(alloc, places, modules)?;
            let pieces = pieces.as_slice();
            let pages = place_pages(alloc, pieces, fixups, objects, syms.imports())?;
            Ok(pages)
        }
    }
}

/// What the link of these modules puts into its pages, where these are its symbols and its layout. The first refusal of a
/// fixup is answered, in chosen order and in file order, and `StartOutside` after all of them.
fn place_at(
    alloc: Global,
    modules: &[&ObjModule],
    syms: &Symbols,
    layout: &Layout,
) -> Result<Placed, Fail<FixRefusal>>
    requires { All HasLocations (map (λ m. m.now) modules.now) }
    ensures { Answers result
        (λ placed. (l : Link) → AreLaid l (map (λ m. m.now) modules.now) syms.now layout.now.places layout.now.objects
        → (place_refusal l ≡ None) × ArePlaced l layout.now.stack placed)
        (λ refusal. (l : Link) → AreLaid l (map (λ m. m.now) modules.now) syms.now layout.now.places layout.now.objects
        → place_refusal l ≡ Some refusal) }
{
    let places = &layout.places;
    let objects = layout.objects();
    match pages_of(alloc, modules, syms, places, objects) {
        Err(fail) => Err(fail),
        Ok(pages) => match start_of(places, syms, objects, modules)? {
            Err(refusal) => Err(Fail::Said(refusal)),
            Ok(start) => Ok(with_start(pages, start, layout.stack)),
        },
    }
}

/// What a link puts into the pages of its module, from its symbols and its layout ("9Ch FIXUPP", "8Ah MODEND"). The first
/// refusal of a fixup is answered, in chosen order and in file order, and `StartOutside` after all of them.
pub fn place_fixes(
    alloc: Global,
    input: &LinkInput,
    syms: &Symbols,
    layout: &Layout,
) -> Result<Placed, Fail<FixRefusal>>
    requires whole { WholeInput input.now }
    requires bound { IsBound input.now syms.now }
    requires laid { IsLaidOut (link_of input.now syms.now.chosen) layout.now }
    ensures { Answers result
        (λ placed. (place_refusal (link_of input.now syms.now.chosen) ≡ None)
        × ArePlaced (link_of input.now syms.now.chosen) (stack_top (link_of input.now syms.now.chosen)) placed)
        (λ refusal. place_refusal (link_of input.now syms.now.chosen) ≡ Some refusal) }
{
    let modules = modules_at(alloc, input, syms.chosen())?;
    place_at(alloc, modules.as_slice(), syms, layout)
}
