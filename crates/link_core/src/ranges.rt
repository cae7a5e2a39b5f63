//! What the types of fixups say of their numbers.

ghost use Rattle.std.specs.List.{All};
ghost use Rattle.link_core.specs.Ranges.{TargetHasRange, HasRange};

use lx_types::{Fix, FixTarget, Seq};

fn target_range(target: FixTarget)
    ensures { TargetHasRange target }
{
    match target {
        FixTarget::Internal { object, offset } => {
            let _object = object;
            let _offset = offset;
        }
        FixTarget::Ordinal { import, ordinal } => {
            let _import = import;
            let _ordinal = ordinal;
        }
        FixTarget::Named { import, name_at } => {
            let _import = import;
            let _name_at = name_at;
        }
        FixTarget::Own { ordinal } => {
            let _ordinal = ordinal;
        }
    }
}

fn fix_range(fix: &Fix)
    ensures { HasRange fix.now }
{
    let _additive = fix.additive;
    target_range(fix.target);
}

fn page_ranges(fixes: &[Fix])
    ensures { All HasRange fixes.now }
{
    for fix in fixes {
        fix_range(fix);
    }
}

fn object_ranges(pages: &[Seq<Fix>])
    ensures { All (All HasRange) pages.now }
{
    for page in pages {
        page_ranges(page.as_slice());
    }
}

/// The numbers of all fixups have 32 bits.
pub fn fix_ranges(objects: &[Seq<Seq<Fix>>])
    ensures { All (All (All HasRange)) objects.now }
{
    for pages in objects {
        object_ranges(pages.as_slice());
    }
}
