//! Who plays the items of a transcript.

ghost use Rattle.std.specs.Prelude.{◌≡◌, [], ◌∷◌, ◌++◌, List, None, Ok, IfOk, option_copied, option_map};
ghost use Rattle.session_model.specs.Merging.{Item};
ghost use Rattle.check_model.specs.Checks.{Judge};
ghost use Rattle.check_core.specs.ToldItems.{item_of};
ghost use Rattle.check_core.specs.PlayedItems.{IsPlayed, CanPlay, next_after};

use crate::items::ToldItem;
use check_model::CheckKind;
use load_model::Command;
use lx_types::NoMemory;

/// A loader in one thread that does items one after another, and judges each by what it does itself.
pub trait Player {
    /// It has done the items before a place, of which nothing was wrong, and these come after.
    ghost stands: { Self → Judge → List Item → List Item → Type 0 };

    /// What is wrong with the next item, of the kinds from `Refused` to `Reply`; it does the item, where nothing is. The item
    /// is for this command of its process's script, if it is for one; `next` is what the process does next that is for a
    /// command, if it does.
    fn play(
        &mut self,
        item: ToldItem<'_>,
        command: Option<&Command>,
        next: Option<ToldItem<'_>>,
    ) -> Result<Option<CheckKind>, NoMemory>
        requires { (j : Judge) × (before : List Item) × (after : List Item) × stands self.old j before (item_of item ∷ after)
            × CanPlay j before (item_of item) (option_copied command) }
        ensures judged { IfOk result (λ answer. (j : Judge) (before after : List Item) → stands self.old j before (item_of item.entry ∷ after)
            → CanPlay j before (item_of item.entry) (option_copied command.entry) → option_map item_of next.entry ≡ next_after (item_of item.entry) after
            → IsPlayed j before (item_of item.entry) after answer) }
        ensures done { result ≡ Ok None → (j : Judge) (before after : List Item) → stands self.old j before (item_of item.entry ∷ after)
            → CanPlay j before (item_of item.entry) (option_copied command.entry) → option_map item_of next.entry ≡ next_after (item_of item.entry) after
            → stands self.new j (before ++ item_of item.entry ∷ []) after };
}
