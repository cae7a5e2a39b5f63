//! A page as its module's file has it.

ghost use Rattle.std.specs.Prelude.{◌≡◌, ◌<◌, ◌≤◌, ◌^◌, [], ℕ, length, slice_index};
ghost use Rattle.lx_types.specs.declared.object.TheConstants.{PAGE_SIZE};
ghost use Rattle.lx_types.specs.Object.{pages_of};
ghost use Rattle.lx_types.specs.Parts.{object_of};
ghost use Rattle.lx_types.specs.Sound.{IsNumberOf};
ghost use Rattle.lx_model.specs.Fixed.{Raw};
ghost use Rattle.lx_model.specs.Iterated.{expansion};
ghost use Rattle.lx_model.specs.Packed.{filled};
ghost use Rattle.lx_model.specs.Reading.{value_or};

use lx_iter::expand;
use lx_types::{Module, PAGE_LEN, PageBytes, PageId, PageKind};

// The bytes, and zeros up to the page's end.
fn fill_from(bytes: &[u8], into: &mut PageBytes)
    requires { length bytes.now ≤ PAGE_SIZE }
    ensures { into.new ≡ filled bytes.now }
{
    let (front, after) = into.split_at_mut(bytes.len());
    front.copy_from_slice(bytes);
    after.fill(0);
}

// The bytes that groups give, and zeros up to the page's end; zeros alone where a group has a fault, which the pages of a
// module that was read have not.
fn fill_expanded(bytes: &[u8], into: &mut PageBytes)
    requires { length bytes.now < 2 ^ 32 }
    ensures { into.new ≡ filled (value_or [] (expansion bytes.now)) }
{
    if expand(bytes, into).is_err() {
        fill_from(&[], into);
    }
}

/// Writes a page as the file has it: its data and zeros after it, the bytes that its groups give, or zeros.
/// ("32-bit Linear eXecutable Module Format": "Object Page Table".)
pub fn write_raw(module: &Module, p: PageId, into: &mut PageBytes)
    requires object { IsNumberOf p.object (length module.now.objects) }
    requires page { p.page < pages_of (object_of module.now p.object) }
    ensures { (i : ℕ) → i < PAGE_SIZE → slice_index into.new i ≡ Raw module.now p i }
{
    let data = module.page_bytes(p);
    match module.page(p).kind {
        PageKind::Plain => fill_from(&data[..data.len().min(PAGE_LEN)], into),
        PageKind::Iterated => fill_expanded(data, into),
        PageKind::Invalid | PageKind::Zero => fill_from(&[], into),
    }
}
