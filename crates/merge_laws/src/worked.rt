//! Worked values of the definitions, from outside them: each function's contract is a table of values
//! that the definitions give.

ghost use Rattle.merge_laws.specs.WorkedAccounts.{WorkedBetween, WorkedTouch};
ghost use Rattle.merge_laws.specs.WorkedViews.{WorkedViews};

/// A fault of one process between two lines of the other, and what each says of itself.
pub fn fault_stands_between()
    ensures { WorkedBetween }
{}

/// A touch of three pages, with another's fault between its own, step by step.
pub fn touch_is_told()
    ensures { WorkedTouch }
{}

/// The views of a process after its load and at the end of a touch, and what they give it to account for: by the laws,
/// whose premises hold there.
pub fn views_are_told()
    ensures { WorkedViews }
{
    crate::laws::account_grows();
    crate::laws::touch_grows();
    crate::laws::own_states_are_the_historys();
    crate::laws::touched_pages_are_followed();
    crate::laws::views_account();
    crate::laws::views_touch();
}
