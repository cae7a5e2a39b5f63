//! Addresses, where objects stand at their linked bases.

ghost use Rattle.std.specs.Prelude.{◌≡◌};
ghost use Rattle.std.specs.Option.{option_map_or};
ghost use Rattle.obj_types.specs.Items.{item};
ghost use Rattle.map_model.specs.Listed.{address_among};

use link_model::LaidObject;

// The linked base of an object, or 0.
fn base_of(objects: &[LaidObject], number: u32) -> u32
    ensures { result ≡ option_map_or (λ o. o.base) (item objects.now number) 0 }
{
    match number.checked_sub(1) {
        None => 0,
        Some(place) => match objects.get(place as usize) {
            None => 0,
            Some(object) => object.base,
        },
    }
}

/// The address of an offset in an object, which counts from 1.
pub fn address_of(objects: &[LaidObject], object: u32, offset: u32) -> u32
    ensures { result ≡ address_among objects.now (object, offset) }
{
    base_of(objects, object).wrapping_add(offset)
}
