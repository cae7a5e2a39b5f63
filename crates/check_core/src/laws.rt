//! How places are judged one after another.

ghost use Rattle.check_core.specs.Judged.{JudgedInTurn};
ghost use Rattle.check_core.specs.PlaceStates.{EntriesByHistory, TouchedByItems, PagesDecide, ViewsAnswerAtPlaces};
ghost use Rattle.check_core.specs.NextLaws.{NothingDone, NextIsByCount, OneMoreDone, AllAreDone};

/// What is wrong first at some places is wrong first at these and more; and where nothing is wrong at some, more decide.
pub fn places_are_judged_in_turn()
    ensures { JudgedInTurn }
{}

/// By how many commands each process has done it is known which it has to do next; and at the end none is left exactly where
/// each has done as many as its script has.
pub fn commands_are_counted()
    ensures nothing { NothingDone }
    ensures next { NextIsByCount }
    ensures more { OneMoreDone }
    ensures all { AllAreDone }
{}

/// What may be asked at a place, and what is done then, is so after the history of the entries before it: a board with that
/// history tells both.
pub fn entries_are_the_historys()
    ensures { EntriesByHistory }
{}

/// Which pages a process has touched at a place grows item by item; and these, with the history, decide what it is refused and
/// answered there.
pub fn touched_pages_decide_places()
    ensures items { TouchedByItems }
    ensures decide { PagesDecide }
{}

/// A view that stands for the history before a place, and has mapped what its process has touched there, refuses and replies
/// what the loader does at the place.
pub fn views_answer_at_places()
    ensures { ViewsAnswerAtPlaces }
{
    load_model::views_answer();
}
