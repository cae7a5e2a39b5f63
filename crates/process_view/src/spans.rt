//! Bytes of an object, and the pages that they cover.

ghost use Rattle.std.specs.Prelude.{◌≡◌, ◌<◌, ◌≤◌, ◌+◌, ◌-◌, ◌*◌, ℕ, length};
ghost use Rattle.std.specs.List.{range_with_len};
ghost use Rattle.lx_types.specs.Object.{pages_of};
ghost use Rattle.lx_types.specs.Parts.{object_of};
ghost use Rattle.lx_types.specs.Sound.{IsNumberOf};
ghost use Rattle.lx_model.specs.Library.{module_of};
ghost use Rattle.load_model.specs.Modules as modules;
ghost use Rattle.load_model.specs.Memory.{pages_over};
ghost use Rattle.load_model.specs.Refusals as refusals;
ghost use Rattle.process_view.specs.Purposes.{purpose_of};

use crate::purposes::Purpose;
use load_model::{Place, Refusal};
use lx_types::{Class, PAGE_SIZE, PageId, PageKind};
use mod_graph::Library;

/// The pages that bytes cover: the first, and the one after the last.
#[derive(Clone, Copy)]
pub struct Span {
    pub first: u32,
    pub end: u32,
}

/// The pages that `len` bytes from an offset on cover.
pub fn span_of(offset: u32, len: u32) -> Span
    ensures pages { range_with_len result.first (result.end - result.first) ≡ pages_over offset len }
    ensures order { result.first ≤ result.end }
    ensures within { (n : ℕ) → n < result.end → n * PAGE_SIZE < offset + len }
{
    if len == 0 {
        return Span { first: 0, end: 0 };
    }
    let last = u64::from(offset) + u64::from(len) - 1;
    Span {
        first: offset / PAGE_SIZE,
        end: (last / u64::from(PAGE_SIZE) + 1) as u32,
    }
}

// Whether the object is not there, or the bytes pass its end.
#[tactic(auto, unfolding(load_model::specs::Modules::objects_of, load_model::specs::Modules::object_at))]
fn is_outside(lib: &Library, m: u32, place: &Place) -> bool
    requires { m < length lib.now }
    ensures { result ≡ refusals.is_outside lib.now m place.now.object place.now.offset place.now.len }
{
    let objects = lib.module(m).objects();
    if place.object == 0 || place.object as usize > objects.len() {
        return true;
    }
    let size = objects[place.object as usize - 1].size;
    u64::from(size) < u64::from(place.offset) + u64::from(place.len)
}

// Whether a page cannot be reached.
#[tactic(auto, unfolding(load_model::specs::Modules::is_invalid))]
fn is_invalid(lib: &Library, m: u32, p: PageId) -> bool
    requires module { m < length lib.now }
    requires object { IsNumberOf p.object (length (module_of lib.now m).objects) }
    requires page { p.page < pages_of (object_of (module_of lib.now m) p.object) }
    ensures { result ≡ modules.is_invalid lib.now m p }
{
    match lib.module(m).page(p).kind {
        PageKind::Invalid => true,
        PageKind::Plain | PageKind::Iterated | PageKind::Zero => false,
    }
}

/// Who sees a write to an object of module `m`.
#[tactic(auto, unfolding(load_model::specs::Modules::object_at))]
pub fn class_of(lib: &Library, m: u32, object: u32) -> Class
    requires module { m < length lib.now }
    requires object { IsNumberOf object (length (module_of lib.now m).objects) }
    ensures { result ≡ objects.class_of (modules.object_at lib.now m object) }
{
    lib.module(m).objects()[object as usize - 1].class()
}

ghost use Rattle.lx_types.specs.Object as objects;

/// Whether all processes share a page: it is no private one, and can be reached.
pub fn is_shared_page(lib: &Library, m: u32, p: PageId) -> bool
    requires module { m < length lib.now }
    requires object { IsNumberOf p.object (length (module_of lib.now m).objects) }
    requires page { p.page < pages_of (object_of (module_of lib.now m) p.object) }
    ensures { result ≡ is_fixable (module_of lib.now m) p }
{
    if is_invalid(lib, m, p) {
        return false;
    }
    match class_of(lib, m, p.object) {
        Class::Code | Class::Shared => true,
        Class::Private => false,
    }
}

ghost use Rattle.page_fix.specs.Fixable.{is_fixable};

// Why an object cannot be used so.
fn class_refusal(purpose: Purpose, class: Class) -> Option<Refusal>
    ensures { result ≡ refusals.class_refusal (purpose_of purpose) class }
{
    match (purpose, class) {
        (Purpose::Touch, _) => None,
        (Purpose::Write, Class::Code) => Some(Refusal::ReadOnly),
        (Purpose::Write, _) => None,
        (Purpose::Share, Class::Shared) => None,
        (Purpose::Share, _) => Some(Refusal::NotShared),
        (Purpose::Peek, Class::Shared) => Some(Refusal::IsShared),
        (Purpose::Peek, _) => None,
        (Purpose::Debug, Class::Code) => None,
        (Purpose::Debug, _) => Some(Refusal::NotCode),
    }
}

// Whether one of the pages that a place covers cannot be reached.
fn covers_invalid(lib: &Library, m: u32, place: &Place) -> bool
    requires module { m < length lib.now }
    requires inside { refusals.is_outside lib.now m place.now.object place.now.offset place.now.len ≡ false }
    ensures { result ≡ refusals.covers_invalid lib.now m place.now.object place.now.offset place.now.len }
{
    let span = span_of(place.offset, place.len);
    for page in span.first..span.end {
        let p = PageId {
            object: place.object,
            page,
        };
        if is_invalid(lib, m, p) {
            return true;
        }
    }
    false
}

/// Why the bytes of a place in module `m` cannot be used so, whatever is mapped.
#[tactic(auto, unfolding(load_model::specs::Refusals::span_refusal))]
pub fn span_refusal(lib: &Library, m: u32, purpose: Purpose, place: &Place) -> Option<Refusal>
    requires { m < length lib.now }
    ensures { result ≡ refusals.span_refusal lib.now (purpose_of purpose) m place.now.object place.now.offset place.now.len }
{
    if is_outside(lib, m, place) {
        return Some(Refusal::Range);
    }
    let class = class_of(lib, m, place.object);
    if let Some(refusal) = class_refusal(purpose, class) {
        return Some(refusal);
    }
    if covers_invalid(lib, m, place) {
        return Some(Refusal::Invalid);
    }
    None
}

ghost use Rattle.std.specs.Prelude.{false};
