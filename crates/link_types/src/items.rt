//! Items of lists that count from 1.

ghost use Rattle.std.specs.Prelude.{◌≡◌, option_copied};
ghost use Rattle.obj_types.specs.Items.{item};

/// The item with an index from 1.
pub fn item_at<T>(items: &[T], index: u32) -> Option<&T>
    ensures { option_copied result ≡ item items.now index }
{
    match index.checked_sub(1) {
        None => None,
        Some(place) => items.get(place as usize),
    }
}
