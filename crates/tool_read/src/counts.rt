//! How many modules, externals and imports a link has.
ghost use Rattle.std.specs.Prelude.{◌≡◌, ◌+◌, IfSome, sum_by};
ghost use Rattle.obj_types.specs.Input.{counted, total};

use obj_types::{LinkInput, ObjModule};

// The count with one module more, where it has 32 bits.
fn with_module(count: u32, own: &ObjModule) -> Option<u32>
    ensures { IfSome result (λ more. more ≡ count + counted own.now) }
{
    let externals = u32::try_from(own.exts.as_slice().len()).ok()?;
    let imports = u32::try_from(own.imports.as_slice().len()).ok()?;
    count
        .checked_add(1)?
        .checked_add(externals)?
        .checked_add(imports)
}

fn with_modules(before: u32, modules: &[ObjModule]) -> Option<u32>
    ensures { IfSome result (λ more. more ≡ before + sum_by counted modules.now) }
{
    let mut count = before;
    for own in modules {
        count = with_module(count, own)?;
    }
    Some(count)
}

/// How many modules, externals and imports there are, where the number has 32 bits.
pub fn total(input: &LinkInput) -> Option<u32>
    ensures { IfSome result (λ count. count ≡ total input.now) }
{
    let objects = with_modules(0, input.objects.as_slice())?;
    let all = with_modules(objects, input.libs.as_slice())?;
    let imports = u32::try_from(input.def.imports.as_slice().len()).ok()?;
    all.checked_add(imports)
}
